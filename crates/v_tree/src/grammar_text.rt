//! The grammar as a text, a line for each row of the table in `specs/Table.antt`, with which the check compares it.
//!
//! A line has the row's head, then `=`, or `>` where nesting is one deeper at the row's tokens, then its parts. A part is a
//! head's name, with `?` before it where it may be left out and `*` where it is repeated; or a mark or a word behind a `'`,
//! or a class of names or numbers behind a `#`.

/// The heads, in the order of their numbers, with one space between.
pub const HEADS: &str =
    "source_text module_declaration list_of_ports next_name module_item output_rest reg_rest memory_range initial_value value next_number function_input local_declaration range bound event_control next_edge edge connections next_connection connection statement_or_null statement block_label else_branch case_keyword case_body case_default_rest case_item case_default next_expression assignment_mark lvalue next_lvalue selects select select_base select_extent expression expression_rest primary name_rest brace_rest sign_function unary_operator binary_operator";

/// The words and marks that stand in the grammar, in the order of their symbols, with one space between.
pub const SPELLED: &str =
    "module endmodule input output wire reg initial assign always function endfunction posedge negedge or begin end if else case casez casex endcase default $signed $unsigned ( ) ; , [ ] { } : = <= @ * ? . +: + - / % ** << >> <<< >>> < > >= == != === !== & | ^ ~^ && || ~ ! ~& ~|";

/// The classes of names and numbers, in the order of their symbols, with one space between.
pub const CLASSES: &str = "name number decimal nought";

/// The rows, a line for each.
pub const ROWS: &str = "source_text = *module_declaration
module_declaration = 'module #name ?list_of_ports '; *module_item 'endmodule
list_of_ports = '( #name *next_name ')
next_name = ', #name
module_item = 'input ?range #name ';
module_item = 'output output_rest
module_item = 'wire ?range #name ';
module_item = 'reg ?range #name ?reg_rest ';
module_item = 'initial #name '<= #number ';
module_item = 'assign lvalue '= expression ';
module_item = 'always '@ event_control statement_or_null
module_item = 'function ?range #name '; function_input *function_input *local_declaration statement 'endfunction
module_item = #name #name '( ?connections ') ';
output_rest = ?range #name ';
output_rest = 'reg ?range #name ?initial_value ';
reg_rest = memory_range
reg_rest = initial_value
memory_range = range
initial_value = '= value
value = #number
value = '{ #number *next_number '}
next_number = ', #number
function_input = 'input ?range #name ';
local_declaration = 'reg ?range #name ';
range = '[ bound ': #nought ']
bound = #decimal
bound = #nought
event_control = '*
event_control = '( edge *next_edge ')
next_edge = 'or edge
edge = 'posedge #name
edge = 'negedge #name
connections = connection *next_connection
next_connection = ', connection
connection = '. #name '( ?expression ')
statement_or_null = statement
statement_or_null = ';
statement > 'begin ?block_label *statement 'end
statement > 'if '( expression ') statement_or_null ?else_branch
statement > case_keyword '( expression ') case_body 'endcase
statement > lvalue assignment_mark expression ';
block_label = ': #name *local_declaration
else_branch = 'else statement_or_null
case_keyword = 'case
case_keyword = 'casez
case_keyword = 'casex
case_body = case_item *case_item ?case_default_rest
case_body = case_default_rest
case_default_rest = case_default *case_item
case_item = expression *next_expression ': statement_or_null
case_default = 'default ': statement_or_null
next_expression = ', expression
assignment_mark = '=
assignment_mark = '<=
lvalue = #name ?selects
lvalue > '{ lvalue *next_lvalue '}
next_lvalue = ', lvalue
selects = select ?select
select = '[ select_base ?select_extent ']
select_base = bound
select_base = expression
select_extent = ': bound
select_extent = '+: bound
expression > primary ?expression_rest
expression > unary_operator primary
expression_rest = binary_operator primary
expression_rest = '? primary ': primary
primary = #number
primary = '( expression ')
primary = #name ?name_rest
primary = '{ brace_rest '}
primary = sign_function '( expression ')
name_rest = '( expression *next_expression ')
name_rest = selects
brace_rest = bound '{ expression *next_expression '}
brace_rest = expression *next_expression
sign_function = '$signed
sign_function = '$unsigned
unary_operator = '~
unary_operator = '!
unary_operator = '-
unary_operator = '&
unary_operator = '~&
unary_operator = '|
unary_operator = '~|
unary_operator = '^
unary_operator = '~^
binary_operator = '+
binary_operator = '-
binary_operator = '*
binary_operator = '/
binary_operator = '%
binary_operator = '**
binary_operator = '<<
binary_operator = '>>
binary_operator = '<<<
binary_operator = '>>>
binary_operator = '<
binary_operator = '<=
binary_operator = '>
binary_operator = '>=
binary_operator = '==
binary_operator = '!=
binary_operator = '===
binary_operator = '!==
binary_operator = '&
binary_operator = '|
binary_operator = '^
binary_operator = '~^
binary_operator = '&&
binary_operator = '||";
