//! The grammar as a text, a line for each row of the table in `specs/Table.antt`, with which the check compares it.
//!
//! A line has the row's head, then `=`, or `>` where nesting is one deeper at the row's tokens, then its parts. A part is a
//! head's name, with `?` before it where it may be left out, `*` where it is repeated and `+` where each turn of a
//! repetition nests one deeper; or a mark or a reserved word behind a `'`, or a class of names or literals behind a `#`.

/// The heads, in the order of their numbers, with one space between.
pub const HEADS: &str =
    "source_text description package_declaration package_items package_item optional_label optional_lifetime package_import_declaration package_import_items next_package_import_item package_import_item imported_name module_declaration interface_declaration header header_imports optional_parameter_port_list optional_parameter_ports next_parameter_port parameter_port_declaration optional_port_list optional_ports next_port parameter_declaration parameter_keyword optional_parameter_keyword parameter_bodies next_parameter_body parameter_body parameter_name_rest optional_initializer declarators next_declarator declarator dimensions dimension optional_right_bound port_declaration port_direction optional_port_direction net_or_variable optional_net_or_variable port_type port_name_rest optional_dimensioned_name keyword_type type_keyword signing optional_signing data_type optional_scoped_name aggregate_type struct_union optional_packing struct_union_members struct_union_member dimensioned_names next_dimensioned_name dimensioned_name optional_enum_base_type enum_names next_enum_name enum_name_declaration type_declaration module_items module_item names next_name net_assignments next_net_assignment net_assignment data_declaration variable_type variable_name_rest item_name_rest declared_name_rest next_declarators optional_parameter_assignments next_parameter_assignment parameter_assignment hierarchical_instances next_instances next_instance hierarchical_instance optional_port_connections next_port_connection port_connection optional_connected_expression loop_generate_construct optional_genvar_keyword if_generate_construct generate_else case_generate_construct case_generate_body case_generate_items optional_case_generate_default case_generate_default optional_colon case_generate_item expressions next_expression optional_expression generate_block modport_declaration modport_items next_modport_item modport_item modport_ports next_modport_port modport_port function_declaration function_type function_name_rest optional_name optional_tf_port_list optional_tf_ports next_tf_port tf_port_item optional_tf_port_direction task_declaration always_construct event_control event_control_rest event_expression next_event_edge event_separator event_edge edge_identifier optional_event_member statement statement_name_rest call block_items block_item automatic_declaration block_name_rest block_scoped_name_rest block_select_rest statement_item conditional_statement unique_priority else_statement case_keyword case_body case_items optional_case_default case_default case_item for_initialization for_step assignment_rest inc_or_dec_operator assignment_operator variable_lvalue lvalue_concatenation lvalue_concatenation_rest stream_operator optional_slice_size variable_lvalues next_lvalue selects select optional_part_select_rest part_select_operator expression optional_conditional_rest logical_or logical_or_rest logical_and logical_and_rest bitwise_or bitwise_or_rest bitwise_xor bitwise_xor_rest xor_operator bitwise_and bitwise_and_rest equality equality_rest equality_operator relation relation_rest relation_operator value_ranges next_value_range value_range shift shift_rest shift_operator sum sum_rest sum_operator product product_rest product_operator power power_rest unary unary_operator primary optional_size_rest primary_brace_rest concatenation_rest next_expressions primary_name_rest arguments_or_selects optional_arguments optional_cast cast cast_operand pattern_items pattern_rest next_pattern_item pattern_item optional_pattern_value";

/// The classes of names and literals, in the order of their symbols, with one space between.
pub const CLASSES: &str = "identifier system decimal based fill";

/// The rows, a line for each.
pub const ROWS: &str = "source_text = *description
description = package_declaration
description = module_declaration
description = interface_declaration
description = package_import_declaration
description = type_declaration
description = parameter_declaration ';
description = function_declaration
description = task_declaration
description = ';
package_declaration = 'package optional_lifetime #identifier '; package_items 'endpackage optional_label
package_items = *package_item
package_item = package_import_declaration
package_item = type_declaration
package_item = parameter_declaration ';
package_item = function_declaration
package_item = task_declaration
package_item = ';
optional_label =
optional_label = ': #identifier
optional_lifetime =
optional_lifetime = 'automatic
optional_lifetime = 'static
package_import_declaration = 'import package_import_items ';
package_import_items = package_import_item *next_package_import_item
next_package_import_item = ', package_import_item
package_import_item = #identifier ':: imported_name
imported_name = #identifier
imported_name = '*
module_declaration = 'module header module_items 'endmodule optional_label
interface_declaration = 'interface header module_items 'endinterface optional_label
header = optional_lifetime #identifier header_imports optional_parameter_port_list optional_port_list ';
header_imports = *package_import_declaration
optional_parameter_port_list =
optional_parameter_port_list = '# '( optional_parameter_ports ')
optional_parameter_ports =
optional_parameter_ports = parameter_port_declaration *next_parameter_port
next_parameter_port = ', parameter_port_declaration
parameter_port_declaration = optional_parameter_keyword parameter_body
optional_port_list =
optional_port_list = '( optional_ports ')
optional_ports =
optional_ports = port_declaration *next_port
next_port = ', port_declaration
parameter_declaration = parameter_keyword parameter_bodies
parameter_keyword = 'parameter
parameter_keyword = 'localparam
optional_parameter_keyword =
optional_parameter_keyword = parameter_keyword
parameter_bodies = parameter_body *next_parameter_body
next_parameter_body = ', parameter_body
parameter_body = 'type #identifier optional_initializer
parameter_body = keyword_type dimensions declarator
parameter_body = signing dimensions declarator
parameter_body = dimension dimensions declarator
parameter_body = #identifier parameter_name_rest
parameter_name_rest = ':: #identifier dimensions declarator
parameter_name_rest = dimension dimensions declarator
parameter_name_rest = declarator
parameter_name_rest = optional_initializer
optional_initializer =
optional_initializer = '= expression
declarators = declarator *next_declarator
next_declarator = ', declarator
declarator = #identifier dimensions optional_initializer
dimensions = *dimension
dimension = '[ expression optional_right_bound ']
optional_right_bound =
optional_right_bound = ': expression
port_declaration = port_direction optional_net_or_variable port_type
port_declaration = port_type
port_direction = 'input
port_direction = 'output
optional_port_direction =
optional_port_direction = port_direction
net_or_variable = 'wire
net_or_variable = 'var
optional_net_or_variable =
optional_net_or_variable = net_or_variable
port_type = keyword_type dimensions #identifier dimensions
port_type = signing dimensions #identifier dimensions
port_type = dimension dimensions #identifier dimensions
port_type = #identifier port_name_rest
port_name_rest = '. #identifier #identifier
port_name_rest = ':: #identifier dimensions #identifier dimensions
port_name_rest = dimensions optional_dimensioned_name
optional_dimensioned_name =
optional_dimensioned_name = #identifier dimensions
keyword_type = type_keyword optional_signing
type_keyword = 'bit
type_keyword = 'logic
type_keyword = 'reg
type_keyword = 'byte
type_keyword = 'shortint
type_keyword = 'int
type_keyword = 'longint
type_keyword = 'integer
signing = 'signed
signing = 'unsigned
optional_signing =
optional_signing = signing
data_type > keyword_type dimensions
data_type > aggregate_type dimensions
data_type > #identifier optional_scoped_name dimensions
optional_scoped_name =
optional_scoped_name = ':: #identifier
aggregate_type = struct_union optional_packing '{ struct_union_members '}
aggregate_type = 'enum optional_enum_base_type '{ enum_names '}
struct_union = 'struct
struct_union = 'union
optional_packing =
optional_packing = 'packed optional_signing
struct_union_members = struct_union_member *struct_union_member
struct_union_member = data_type dimensioned_names ';
dimensioned_names = dimensioned_name *next_dimensioned_name
next_dimensioned_name = ', dimensioned_name
dimensioned_name = #identifier dimensions
optional_enum_base_type =
optional_enum_base_type = keyword_type dimensions
optional_enum_base_type = #identifier optional_scoped_name dimensions
enum_names = enum_name_declaration *next_enum_name
next_enum_name = ', enum_name_declaration
enum_name_declaration = #identifier optional_initializer
type_declaration = 'typedef data_type #identifier dimensions ';
module_items = *module_item
module_item = parameter_declaration ';
module_item = type_declaration
module_item = package_import_declaration
module_item = function_declaration
module_item = task_declaration
module_item = data_declaration ';
module_item = 'genvar names ';
module_item = 'assign net_assignments ';
module_item = always_construct
module_item > 'generate module_items 'endgenerate
module_item = loop_generate_construct
module_item = if_generate_construct
module_item = case_generate_construct
module_item = modport_declaration
module_item = #identifier item_name_rest
module_item = ';
names = #identifier *next_name
next_name = ', #identifier
net_assignments = net_assignment *next_net_assignment
next_net_assignment = ', net_assignment
net_assignment = variable_lvalue '= expression
data_declaration = keyword_type dimensions declarators
data_declaration = aggregate_type dimensions declarators
data_declaration = net_or_variable variable_type
variable_type = keyword_type dimensions declarators
variable_type = aggregate_type dimensions declarators
variable_type = signing dimensions declarators
variable_type = dimension dimensions declarators
variable_type = #identifier variable_name_rest
variable_name_rest = ':: #identifier dimensions declarators
variable_name_rest = dimensions optional_dimensioned_name optional_initializer *next_declarator
item_name_rest = ':: #identifier dimensions declarators ';
item_name_rest = dimension dimensions declarators ';
item_name_rest = #identifier declared_name_rest
item_name_rest = '# '( optional_parameter_assignments ') hierarchical_instances ';
declared_name_rest = '( optional_port_connections ') next_instances ';
declared_name_rest = dimensions optional_initializer next_declarators ';
next_declarators = *next_declarator
optional_parameter_assignments =
optional_parameter_assignments = parameter_assignment *next_parameter_assignment
next_parameter_assignment = ', parameter_assignment
parameter_assignment = '. #identifier '( optional_expression ')
parameter_assignment = expression
hierarchical_instances = hierarchical_instance *next_instance
next_instances = *next_instance
next_instance = ', hierarchical_instance
hierarchical_instance = #identifier '( optional_port_connections ')
optional_port_connections =
optional_port_connections = port_connection *next_port_connection
next_port_connection = ', port_connection
port_connection = '. #identifier optional_connected_expression
port_connection = '.*
port_connection = expression
optional_connected_expression =
optional_connected_expression = '( optional_expression ')
loop_generate_construct = 'for '( optional_genvar_keyword #identifier '= expression '; expression '; for_step ') generate_block
optional_genvar_keyword =
optional_genvar_keyword = 'genvar
if_generate_construct = 'if '( expression ') generate_block ?generate_else
generate_else = 'else generate_block
case_generate_construct = 'case '( expression ') case_generate_body 'endcase
case_generate_body = case_generate_item case_generate_items optional_case_generate_default
case_generate_body = case_generate_default *case_generate_item
case_generate_items = *case_generate_item
optional_case_generate_default =
optional_case_generate_default = case_generate_default *case_generate_item
case_generate_default = 'default optional_colon generate_block
optional_colon =
optional_colon = ':
case_generate_item = expressions ': generate_block
expressions = expression *next_expression
next_expression = ', expression
optional_expression =
optional_expression = expression
generate_block > 'begin optional_label module_items 'end optional_label
generate_block > module_item
modport_declaration = 'modport modport_items ';
modport_items = modport_item *next_modport_item
next_modport_item = ', modport_item
modport_item = #identifier '( modport_ports ')
modport_ports = modport_port *next_modport_port
next_modport_port = ', modport_port
modport_port = optional_port_direction #identifier
function_declaration = 'function optional_lifetime function_type optional_tf_port_list '; block_items 'endfunction optional_label
function_type = keyword_type dimensions #identifier
function_type = signing dimensions #identifier
function_type = dimension dimensions #identifier
function_type = #identifier function_name_rest
function_type = 'void #identifier
function_name_rest = ':: #identifier dimensions #identifier
function_name_rest = dimensions optional_name
optional_name =
optional_name = #identifier
optional_tf_port_list =
optional_tf_port_list = '( optional_tf_ports ')
optional_tf_ports =
optional_tf_ports = tf_port_item *next_tf_port
next_tf_port = ', tf_port_item
tf_port_item = optional_tf_port_direction port_type
optional_tf_port_direction =
optional_tf_port_direction = 'input
optional_tf_port_direction = 'output
optional_tf_port_direction = 'inout
task_declaration = 'task optional_lifetime #identifier optional_tf_port_list '; block_items 'endtask optional_label
always_construct = 'always_comb statement
always_construct = 'always_latch statement
always_construct = 'always_ff '@ '( event_expression ') statement
always_construct = 'always '@ event_control statement
event_control = '*
event_control = '(*)
event_control = '(* ')
event_control = '( event_control_rest
event_control_rest = '* ')
event_control_rest = '*)
event_control_rest = event_expression ')
event_expression = event_edge *next_event_edge
next_event_edge = event_separator event_edge
event_separator = 'or
event_separator = ',
event_edge = edge_identifier #identifier optional_event_member
edge_identifier = 'posedge
edge_identifier = 'negedge
optional_event_member =
optional_event_member = '. #identifier
statement > statement_item
statement > #identifier statement_name_rest
statement_name_rest = call ';
statement_name_rest = ':: #identifier call ';
statement_name_rest = selects assignment_rest ';
call = '( optional_arguments ')
block_items = *block_item
block_item > statement_item
block_item > parameter_declaration ';
block_item > 'automatic automatic_declaration ';
block_item > keyword_type dimensions declarators ';
block_item > aggregate_type dimensions declarators ';
block_item > 'var variable_type ';
block_item > #identifier block_name_rest
automatic_declaration = variable_type
automatic_declaration = 'var variable_type
block_name_rest = call ';
block_name_rest = ':: #identifier block_scoped_name_rest
block_name_rest = selects block_select_rest
block_scoped_name_rest = call ';
block_scoped_name_rest = dimensions declarators ';
block_select_rest = assignment_rest ';
block_select_rest = declarators ';
statement_item = 'begin optional_label block_items 'end optional_label
statement_item = conditional_statement
statement_item = unique_priority conditional_statement
statement_item = 'for '( for_initialization '; expression '; for_step ') statement
statement_item = 'break ';
statement_item = 'continue ';
statement_item = 'return optional_expression ';
statement_item = lvalue_concatenation assignment_operator expression ';
statement_item = inc_or_dec_operator #identifier selects ';
statement_item = ';
conditional_statement = 'if '( expression ') statement ?else_statement
conditional_statement = case_keyword '( expression ') case_body 'endcase
unique_priority = 'unique
unique_priority = 'unique0
unique_priority = 'priority
else_statement = 'else statement
case_keyword = 'case
case_keyword = 'casez
case_keyword = 'casex
case_body = case_item case_items optional_case_default
case_body = case_default *case_item
case_items = *case_item
optional_case_default =
optional_case_default = case_default *case_item
case_default = 'default optional_colon statement
case_item = expressions ': statement
for_initialization = keyword_type dimensions #identifier '= expression
for_initialization = #identifier optional_scoped_name dimensions #identifier '= expression
for_step = #identifier assignment_rest
for_step = inc_or_dec_operator #identifier
assignment_rest = assignment_operator expression
assignment_rest = inc_or_dec_operator
inc_or_dec_operator = '++
inc_or_dec_operator = '--
assignment_operator = '=
assignment_operator = '<=
assignment_operator = '+=
assignment_operator = '-=
assignment_operator = '*=
assignment_operator = '/=
assignment_operator = '%=
assignment_operator = '&=
assignment_operator = '|=
assignment_operator = '^=
assignment_operator = '<<=
assignment_operator = '>>=
assignment_operator = '<<<=
assignment_operator = '>>>=
variable_lvalue = #identifier selects
variable_lvalue = lvalue_concatenation
lvalue_concatenation > '{ lvalue_concatenation_rest
lvalue_concatenation_rest = variable_lvalues '}
lvalue_concatenation_rest = stream_operator optional_slice_size '{ variable_lvalues '} '}
stream_operator = '<<
stream_operator = '>>
optional_slice_size =
optional_slice_size = #decimal
optional_slice_size = keyword_type
optional_slice_size = #identifier optional_scoped_name
optional_slice_size = '( expression ')
variable_lvalues = variable_lvalue *next_lvalue
next_lvalue = ', variable_lvalue
selects = *select
select = '. #identifier
select = '[ expression optional_part_select_rest ']
optional_part_select_rest =
optional_part_select_rest = part_select_operator expression
part_select_operator = ':
part_select_operator = '+:
part_select_operator = '-:
expression > logical_or optional_conditional_rest
optional_conditional_rest =
optional_conditional_rest = '? expression ': expression
logical_or = logical_and +logical_or_rest
logical_or_rest = '|| logical_and
logical_and = bitwise_or +logical_and_rest
logical_and_rest = '&& bitwise_or
bitwise_or = bitwise_xor +bitwise_or_rest
bitwise_or_rest = '| bitwise_xor
bitwise_xor = bitwise_and +bitwise_xor_rest
bitwise_xor_rest = xor_operator bitwise_and
xor_operator = '^
xor_operator = '~^
xor_operator = '^~
bitwise_and = equality +bitwise_and_rest
bitwise_and_rest = '& equality
equality = relation +equality_rest
equality_rest = equality_operator relation
equality_operator = '==
equality_operator = '!=
equality_operator = '===
equality_operator = '!==
equality_operator = '==?
equality_operator = '!=?
relation = shift +relation_rest
relation_rest = relation_operator shift
relation_rest = 'inside '{ value_ranges '}
relation_operator = '<
relation_operator = '<=
relation_operator = '>
relation_operator = '>=
value_ranges = value_range *next_value_range
next_value_range = ', value_range
value_range = expression
value_range = '[ expression ': expression ']
shift = sum +shift_rest
shift_rest = shift_operator sum
shift_operator = '<<
shift_operator = '>>
shift_operator = '<<<
shift_operator = '>>>
sum = product +sum_rest
sum_rest = sum_operator product
sum_operator = '+
sum_operator = '-
product = power +product_rest
product_rest = product_operator power
product_operator = '*
product_operator = '/
product_operator = '%
power = unary +power_rest
power_rest = '** unary
unary > unary_operator unary
unary = primary
unary_operator = '+
unary_operator = '-
unary_operator = '!
unary_operator = '~
unary_operator = '&
unary_operator = '~&
unary_operator = '|
unary_operator = '~|
unary_operator = '^
unary_operator = '~^
unary_operator = '^~
primary = #decimal optional_size_rest
primary = #based
primary = #fill
primary = '( expression ') optional_cast
primary = '{ primary_brace_rest
primary = '' '{ pattern_items '}
primary = keyword_type dimensions optional_cast
primary = signing cast
primary = #system '( expression ')
primary = #identifier primary_name_rest
optional_size_rest =
optional_size_rest = #based
optional_size_rest = cast
primary_brace_rest = stream_operator optional_slice_size '{ expressions '} '}
primary_brace_rest = expression concatenation_rest
concatenation_rest = '{ expressions '} '}
concatenation_rest = next_expressions '}
next_expressions = *next_expression
primary_name_rest = optional_scoped_name arguments_or_selects optional_cast
arguments_or_selects = '( optional_arguments ')
arguments_or_selects = *select
optional_arguments =
optional_arguments = expression *next_expression
optional_cast =
optional_cast = cast
cast = '' cast_operand
cast_operand = '( expression ')
cast_operand = '{ pattern_items '}
pattern_items = 'default ': expression *next_pattern_item
pattern_items = expression pattern_rest
pattern_rest = ': expression *next_pattern_item
pattern_rest = '{ expressions '}
pattern_rest = *next_pattern_item
next_pattern_item = ', pattern_item
pattern_item = 'default ': expression
pattern_item = expression optional_pattern_value
optional_pattern_value =
optional_pattern_value = ': expression";
