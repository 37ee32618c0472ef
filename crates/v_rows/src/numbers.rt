//! The numbers of the rows of the target grammar, by the table of `v_tree`.

/// `source_text = *module_declaration`
pub const TEXT: u16 = 0;

/// `module_declaration = 'module #name ?list_of_ports '; *module_item 'endmodule`
pub const MODULE: u16 = 1;

/// `list_of_ports = '( #name *next_name ')`
pub const PORTS: u16 = 2;

/// `next_name = ', #name`
pub const NEXT_NAME: u16 = 3;

/// `module_item = 'input ?range #name ';`
pub const INPUT: u16 = 4;

/// `module_item = 'output output_rest`
pub const OUTPUT: u16 = 5;

/// `module_item = 'wire ?range #name ';`
pub const WIRE: u16 = 6;

/// `module_item = 'reg ?range #name ?reg_rest ';`
pub const REG: u16 = 7;

/// `module_item = 'initial #name '<= #number ';`
pub const INITIAL: u16 = 8;

/// `module_item = 'assign lvalue '= expression ';`
pub const ASSIGN: u16 = 9;

/// `module_item = 'always '@ event_control statement_or_null`
pub const ALWAYS: u16 = 10;

/// `module_item = 'function ?range #name '; function_input *function_input *local_declaration statement 'endfunction`
pub const FUNCTION: u16 = 11;

/// `module_item = #name #name '( ?connections ') ';`
pub const INSTANCE: u16 = 12;

/// `output_rest = ?range #name ';`
pub const OUTPUT_NET: u16 = 13;

/// `output_rest = 'reg ?range #name ?initial_value ';`
pub const OUTPUT_REG: u16 = 14;

/// `reg_rest = memory_range`
pub const MEMORY: u16 = 15;

/// `reg_rest = initial_value`
pub const REG_VALUE: u16 = 16;

/// `memory_range = range`
pub const MEMORY_RANGE: u16 = 17;

/// `initial_value = '= value`
pub const INITIAL_VALUE: u16 = 18;

/// `value = #number`
pub const VALUE: u16 = 19;

/// `value = '{ #number *next_number '}`
pub const PIECES: u16 = 20;

/// `next_number = ', #number`
pub const NEXT_NUMBER: u16 = 21;

/// `function_input = 'input ?range #name ';`
pub const FUNCTION_INPUT: u16 = 22;

/// `local_declaration = 'reg ?range #name ';`
pub const LOCAL: u16 = 23;

/// `range = '[ bound ': #nought ']`
pub const RANGE: u16 = 24;

/// `bound = #decimal`
pub const DECIMAL_BOUND: u16 = 25;

/// `bound = #nought`
pub const NOUGHT_BOUND: u16 = 26;

/// `event_control = '*`
pub const STAR: u16 = 27;

/// `event_control = '( edge *next_edge ')`
pub const EDGES: u16 = 28;

/// `next_edge = 'or edge`
pub const NEXT_EDGE: u16 = 29;

/// `edge = 'posedge #name`
pub const POSEDGE: u16 = 30;

/// `edge = 'negedge #name`
pub const NEGEDGE: u16 = 31;

/// `connections = connection *next_connection`
pub const CONNECTIONS: u16 = 32;

/// `next_connection = ', connection`
pub const NEXT_CONNECTION: u16 = 33;

/// `connection = '. #name '( ?expression ')`
pub const CONNECTION: u16 = 34;

/// `statement_or_null = statement`
pub const BRANCH: u16 = 35;

/// `statement_or_null = ';`
pub const EMPTY_BRANCH: u16 = 36;

/// `statement > 'begin ?block_label *statement 'end`
pub const BLOCK: u16 = 37;

/// `statement > 'if '( expression ') statement_or_null ?else_branch`
pub const IF: u16 = 38;

/// `statement > case_keyword '( expression ') case_body 'endcase`
pub const CASE: u16 = 39;

/// `statement > lvalue assignment_mark expression ';`
pub const STORE: u16 = 40;

/// `block_label = ': #name *local_declaration`
pub const LABEL: u16 = 41;

/// `else_branch = 'else statement_or_null`
pub const ELSE: u16 = 42;

/// `case_keyword = 'case`
pub const PLAIN_CASE: u16 = 43;

/// `case_keyword = 'casez`
pub const CASE_Z: u16 = 44;

/// `case_keyword = 'casex`
pub const CASE_X: u16 = 45;

/// `case_body = case_item *case_item ?case_default_rest`
pub const CASE_ITEMS: u16 = 46;

/// `case_body = case_default_rest`
pub const DEFAULT_ALONE: u16 = 47;

/// `case_default_rest = case_default *case_item`
pub const DEFAULT_REST: u16 = 48;

/// `case_item = expression *next_expression ': statement_or_null`
pub const CASE_ITEM: u16 = 49;

/// `case_default = 'default ': statement_or_null`
pub const DEFAULT_ITEM: u16 = 50;

/// `next_expression = ', expression`
pub const NEXT_EXPRESSION: u16 = 51;

/// `assignment_mark = '=`
pub const BLOCKING: u16 = 52;

/// `assignment_mark = '<=`
pub const NONBLOCKING: u16 = 53;

/// `lvalue = #name ?selects`
pub const LVALUE: u16 = 54;

/// `lvalue > '{ lvalue *next_lvalue '}`
pub const LVALUES: u16 = 55;

/// `next_lvalue = ', lvalue`
pub const NEXT_LVALUE: u16 = 56;

/// `selects = select ?select`
pub const SELECTS: u16 = 57;

/// `select = '[ select_base ?select_extent ']`
pub const SELECT: u16 = 58;

/// `select_base = bound`
pub const NUMBER_BASE: u16 = 59;

/// `select_base = expression`
pub const EXPRESSION_BASE: u16 = 60;

/// `select_extent = ': bound`
pub const DOWN: u16 = 61;

/// `select_extent = '+: bound`
pub const UP: u16 = 62;

/// `expression > primary ?expression_rest`
pub const EXPRESSION: u16 = 63;

/// `expression > unary_operator primary`
pub const UNARY: u16 = 64;

/// `expression_rest = binary_operator primary`
pub const RIGHT: u16 = 65;

/// `expression_rest = '? primary ': primary`
pub const ARMS: u16 = 66;

/// `primary = #number`
pub const NUMBER: u16 = 67;

/// `primary = '( expression ')`
pub const PAREN: u16 = 68;

/// `primary = #name ?name_rest`
pub const NAME: u16 = 69;

/// `primary = '{ brace_rest '}`
pub const BRACES: u16 = 70;

/// `primary = sign_function '( expression ')`
pub const SIGN: u16 = 71;

/// `name_rest = '( expression *next_expression ')`
pub const ARGUMENTS: u16 = 72;

/// `name_rest = selects`
pub const NAME_SELECTS: u16 = 73;

/// `brace_rest = bound '{ expression *next_expression '}`
pub const REPEAT: u16 = 74;

/// `brace_rest = expression *next_expression`
pub const CONCAT: u16 = 75;

/// `sign_function = '$signed`
pub const SIGNED: u16 = 76;

/// `sign_function = '$unsigned`
pub const UNSIGNED: u16 = 77;

/// `unary_operator = '~`
pub const NOT: u16 = 78;

/// `unary_operator = '!`
pub const LOGICAL_NOT: u16 = 79;

/// `unary_operator = '-`
pub const NEG: u16 = 80;

/// `unary_operator = '&`
pub const REDUCE_AND: u16 = 81;

/// `unary_operator = '~&`
pub const REDUCE_NAND: u16 = 82;

/// `unary_operator = '|`
pub const REDUCE_OR: u16 = 83;

/// `unary_operator = '~|`
pub const REDUCE_NOR: u16 = 84;

/// `unary_operator = '^`
pub const REDUCE_XOR: u16 = 85;

/// `unary_operator = '~^`
pub const REDUCE_XNOR: u16 = 86;

/// `binary_operator = '+`
pub const ADD: u16 = 87;

/// `binary_operator = '-`
pub const SUB: u16 = 88;

/// `binary_operator = '*`
pub const MUL: u16 = 89;

/// `binary_operator = '/`
pub const DIV: u16 = 90;

/// `binary_operator = '%`
pub const REM: u16 = 91;

/// `binary_operator = '**`
pub const POWER: u16 = 92;

/// `binary_operator = '<<`
pub const SHIFT_LEFT: u16 = 93;

/// `binary_operator = '>>`
pub const SHIFT_RIGHT: u16 = 94;

/// `binary_operator = '<<<`
pub const ARITHMETIC_LEFT: u16 = 95;

/// `binary_operator = '>>>`
pub const ARITHMETIC_RIGHT: u16 = 96;

/// `binary_operator = '<`
pub const LESS: u16 = 97;

/// `binary_operator = '<=`
pub const LESS_EQUAL: u16 = 98;

/// `binary_operator = '>`
pub const GREATER: u16 = 99;

/// `binary_operator = '>=`
pub const GREATER_EQUAL: u16 = 100;

/// `binary_operator = '==`
pub const EQUAL: u16 = 101;

/// `binary_operator = '!=`
pub const NOT_EQUAL: u16 = 102;

/// `binary_operator = '===`
pub const CASE_EQUAL: u16 = 103;

/// `binary_operator = '!==`
pub const CASE_NOT_EQUAL: u16 = 104;

/// `binary_operator = '&`
pub const AND: u16 = 105;

/// `binary_operator = '|`
pub const OR: u16 = 106;

/// `binary_operator = '^`
pub const XOR: u16 = 107;

/// `binary_operator = '~^`
pub const XNOR: u16 = 108;

/// `binary_operator = '&&`
pub const LOGICAL_AND: u16 = 109;

/// `binary_operator = '||`
pub const LOGICAL_OR: u16 = 110;
