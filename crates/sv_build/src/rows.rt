//! The numbers of those rows of the grammar that are told apart, by the table of `sv_tree`. The last row of a head has none.

/// `optional_lifetime = "automatic"`
pub const AUTOMATIC: u16 = 21;

/// `parameter_keyword = "parameter"`
pub const PARAMETER: u16 = 45;

/// `port_direction = "input"`
pub const INPUT: u16 = 71;

/// `optional_tf_port_direction = "input"`
pub const FORMAL_INPUT: u16 = 225;

/// `optional_tf_port_direction = "output"`
pub const FORMAL_OUTPUT: u16 = 226;

/// `net_or_variable = "wire"`
pub const WIRE: u16 = 75;

/// `parameter_body = "type" identifier optional_initializer`
pub const TYPE_PARAMETER: u16 = 51;

/// `parameter_body = keyword_type dimensions declarator`
pub const KEYWORD_PARAMETER: u16 = 52;

/// `parameter_body = signing dimensions declarator`
pub const SIGNED_PARAMETER: u16 = 53;

/// `parameter_body = dimension dimensions declarator`
pub const DIMENSIONED_PARAMETER: u16 = 54;

/// `parameter_name_rest = "::" identifier dimensions declarator`
pub const SCOPED_PARAMETER_TYPE: u16 = 56;

/// `parameter_name_rest = dimension dimensions declarator`
pub const PARAMETER_TYPE_DIMENSIONS: u16 = 57;

/// `parameter_name_rest = declarator`
pub const PARAMETER_DECLARATOR: u16 = 58;

/// `imported_name = identifier`
pub const IMPORTED_NAME: u16 = 27;

/// `port_declaration = port_direction optional_net_or_variable port_type`
pub const DIRECTED_PORT: u16 = 69;

/// `port_type = keyword_type dimensions identifier dimensions`
pub const KEYWORD_PORT: u16 = 79;

/// `port_type = signing dimensions identifier dimensions`
pub const SIGNED_PORT: u16 = 80;

/// `port_type = dimension dimensions identifier dimensions`
pub const DIMENSIONED_PORT: u16 = 81;

/// `port_name_rest = "." identifier identifier`
pub const MODPORT_PORT: u16 = 83;

/// `port_name_rest = "::" identifier dimensions identifier dimensions`
pub const SCOPED_PORT_TYPE: u16 = 84;

/// `function_type = keyword_type dimensions identifier`
pub const KEYWORD_FUNCTION: u16 = 209;

/// `function_type = signing dimensions identifier`
pub const SIGNED_FUNCTION: u16 = 210;

/// `function_type = dimension dimensions identifier`
pub const DIMENSIONED_FUNCTION: u16 = 211;

/// `function_type = identifier function_name_rest`
pub const NAMED_FUNCTION: u16 = 212;

/// `function_name_rest = "::" identifier dimensions identifier`
pub const SCOPED_FUNCTION_TYPE: u16 = 214;

/// `data_declaration = keyword_type dimensions declarators`
pub const KEYWORD_DATA: u16 = 146;

/// `data_declaration = aggregate_type dimensions declarators`
pub const AGGREGATE_DATA: u16 = 147;

/// `variable_type = keyword_type dimensions declarators`
pub const KEYWORD_VARIABLE: u16 = 149;

/// `variable_type = aggregate_type dimensions declarators`
pub const AGGREGATE_VARIABLE: u16 = 150;

/// `variable_type = signing dimensions declarators`
pub const SIGNED_VARIABLE: u16 = 151;

/// `variable_type = dimension dimensions declarators`
pub const DIMENSIONED_VARIABLE: u16 = 152;

/// `variable_name_rest = "::" identifier dimensions declarators`
pub const SCOPED_VARIABLE_TYPE: u16 = 154;

/// `statement = statement_item`
pub const PLAIN_STATEMENT: u16 = 249;

/// `statement_name_rest = call ";"`
pub const CALL_STATEMENT: u16 = 251;

/// `statement_name_rest = "::" identifier call ";"`
pub const SCOPED_CALL_STATEMENT: u16 = 252;

/// `block_item = statement_item`
pub const STATEMENT_ITEM: u16 = 256;

/// `block_item = parameter_declaration ";"`
pub const PARAMETERS_ITEM: u16 = 257;

/// `block_item = "automatic" automatic_declaration ";"`
pub const AUTOMATIC_ITEM: u16 = 258;

/// `block_item = keyword_type dimensions declarators ";"`
pub const KEYWORD_ITEM: u16 = 259;

/// `block_item = aggregate_type dimensions declarators ";"`
pub const AGGREGATE_ITEM: u16 = 260;

/// `block_item = "var" variable_type ";"`
pub const VAR_ITEM: u16 = 261;

/// `automatic_declaration = variable_type`
pub const PLAIN_AUTOMATIC: u16 = 263;

/// `block_name_rest = call ";"`
pub const CALL_ITEM: u16 = 265;

/// `block_name_rest = "::" identifier block_scoped_name_rest`
pub const SCOPED_ITEM: u16 = 266;

/// `block_scoped_name_rest = call ";"`
pub const SCOPED_CALL_ITEM: u16 = 268;

/// `block_select_rest = assignment_rest ";"`
pub const ASSIGNMENT_ITEM: u16 = 270;

/// `statement_item = "begin" optional_label block_items "end" optional_label`
pub const BLOCK: u16 = 272;

/// `statement_item = conditional_statement`
pub const CONDITIONAL: u16 = 273;

/// `statement_item = unique_priority conditional_statement`
pub const PROMISED_CONDITIONAL: u16 = 274;

/// `statement_item = "for" "(" for_initialization ";" expression ";" for_step ")" statement`
pub const FOR: u16 = 275;

/// `statement_item = "break" ";"`
pub const BREAK: u16 = 276;

/// `statement_item = "continue" ";"`
pub const CONTINUE: u16 = 277;

/// `statement_item = "return" optional_expression ";"`
pub const RETURN: u16 = 278;

/// `statement_item = lvalue_concatenation assignment_operator expression ";"`
pub const CONCATENATION_ASSIGNMENT: u16 = 279;

/// `statement_item = inc_or_dec_operator identifier selects ";"`
pub const PREFIX: u16 = 280;

/// `conditional_statement = "if" "(" expression ")" statement else_statement`
pub const IF: u16 = 282;

/// `unique_priority = "unique"`
pub const UNIQUE: u16 = 284;

/// `unique_priority = "unique0"`
pub const UNIQUE0: u16 = 285;

/// `case_keyword = "case"`
pub const CASE: u16 = 288;

/// `case_keyword = "casez"`
pub const CASEZ: u16 = 289;

/// `case_body = case_item case_items optional_case_default`
pub const ITEMS_FIRST: u16 = 291;

/// `for_initialization = keyword_type dimensions identifier "=" expression`
pub const KEYWORD_LOOP: u16 = 298;

/// `for_step = identifier assignment_rest`
pub const ASSIGNMENT_STEP: u16 = 300;

/// `assignment_rest = assignment_operator expression`
pub const ASSIGNMENT: u16 = 302;

/// `inc_or_dec_operator = "++"`
pub const INCREMENT: u16 = 304;

/// `assignment_operator = "="`
pub const ASSIGN: u16 = 306;

/// `assignment_operator = "<="`
pub const ASSIGN_NONBLOCKING: u16 = 307;

/// `assignment_operator = "+="`
pub const ASSIGN_ADD: u16 = 308;

/// `assignment_operator = "-="`
pub const ASSIGN_SUBTRACT: u16 = 309;

/// `assignment_operator = "*="`
pub const ASSIGN_MULTIPLY: u16 = 310;

/// `assignment_operator = "/="`
pub const ASSIGN_DIVIDE: u16 = 311;

/// `assignment_operator = "%="`
pub const ASSIGN_REMAINDER: u16 = 312;

/// `assignment_operator = "&="`
pub const ASSIGN_AND: u16 = 313;

/// `assignment_operator = "|="`
pub const ASSIGN_OR: u16 = 314;

/// `assignment_operator = "^="`
pub const ASSIGN_XOR: u16 = 315;

/// `assignment_operator = "<<="`
pub const ASSIGN_SHIFT_LEFT: u16 = 316;

/// `assignment_operator = ">>="`
pub const ASSIGN_SHIFT_RIGHT: u16 = 317;

/// `assignment_operator = "<<<="`
pub const ASSIGN_ARITHMETIC_SHIFT_LEFT: u16 = 318;

/// `variable_lvalue = identifier selects`
pub const NAME_LVALUE: u16 = 320;

/// `lvalue_concatenation_rest = variable_lvalues "}"`
pub const PLAIN_LVALUES: u16 = 323;

/// `always_construct = "always_comb" statement`
pub const ALWAYS_COMB: u16 = 229;

/// `always_construct = "always_latch" statement`
pub const ALWAYS_LATCH: u16 = 230;

/// `always_construct = "always_ff" "@" "(" event_expression ")" statement`
pub const ALWAYS_FF: u16 = 231;

/// `event_control = "*"`
pub const STAR: u16 = 233;

/// `event_control = "(*)"`
pub const PARENTHESIZED_STAR: u16 = 234;

/// `event_control = "(*" ")"`
pub const OPENING_STAR: u16 = 235;

/// `event_control_rest = "*" ")"`
pub const SPACED_STAR: u16 = 237;

/// `event_control_rest = "*)"`
pub const CLOSING_STAR: u16 = 238;

/// `edge_identifier = "posedge"`
pub const POSEDGE: u16 = 245;

/// `parameter_assignment = "." identifier "(" optional_expression ")"`
pub const NAMED_BIND: u16 = 166;

/// `port_connection = "." identifier optional_connected_expression`
pub const NAMED_CONNECTION: u16 = 175;

/// `port_connection = ".*"`
pub const ALL_CONNECTION: u16 = 176;

/// `module_item = parameter_declaration ";"`
pub const PARAMETERS_MODULE_ITEM: u16 = 125;

/// `module_item = type_declaration`
pub const TYPEDEF_MODULE_ITEM: u16 = 126;

/// `module_item = package_import_declaration`
pub const IMPORT_MODULE_ITEM: u16 = 127;

/// `module_item = function_declaration`
pub const FUNCTION_MODULE_ITEM: u16 = 128;

/// `module_item = task_declaration`
pub const TASK_MODULE_ITEM: u16 = 129;

/// `module_item = data_declaration ";"`
pub const DATA_MODULE_ITEM: u16 = 130;

/// `module_item = "genvar" names ";"`
pub const GENVAR_MODULE_ITEM: u16 = 131;

/// `module_item = "assign" net_assignments ";"`
pub const ASSIGN_MODULE_ITEM: u16 = 132;

/// `module_item = always_construct`
pub const ALWAYS_MODULE_ITEM: u16 = 133;

/// `module_item = "generate" module_items "endgenerate"`
pub const GENERATE_MODULE_ITEM: u16 = 134;

/// `module_item = loop_generate_construct`
pub const LOOP_MODULE_ITEM: u16 = 135;

/// `module_item = if_generate_construct`
pub const IF_MODULE_ITEM: u16 = 136;

/// `module_item = case_generate_construct`
pub const CASE_MODULE_ITEM: u16 = 137;

/// `module_item = modport_declaration`
pub const MODPORT_MODULE_ITEM: u16 = 138;

/// `module_item = identifier item_name_rest`
pub const NAME_MODULE_ITEM: u16 = 139;

/// `item_name_rest = "::" identifier dimensions declarators ";"`
pub const SCOPED_DATA: u16 = 156;

/// `item_name_rest = dimension dimensions declarators ";"`
pub const DIMENSIONED_DATA: u16 = 157;

/// `item_name_rest = identifier declared_name_rest`
pub const NAMED_DATA: u16 = 158;

/// `declared_name_rest = "(" optional_port_connections ")" next_instances ";"`
pub const INSTANCE: u16 = 160;

/// `case_generate_body = case_generate_item case_generate_items optional_case_generate_default`
pub const GENERATE_ITEMS_FIRST: u16 = 186;

/// `generate_block = "begin" optional_label module_items "end" optional_label`
pub const GENERATE_BLOCK: u16 = 199;

/// `package_item = package_import_declaration`
pub const IMPORT_PACKAGE_ITEM: u16 = 12;

/// `package_item = type_declaration`
pub const TYPEDEF_PACKAGE_ITEM: u16 = 13;

/// `package_item = parameter_declaration ";"`
pub const PARAMETERS_PACKAGE_ITEM: u16 = 14;

/// `package_item = function_declaration`
pub const FUNCTION_PACKAGE_ITEM: u16 = 15;

/// `package_item = task_declaration`
pub const TASK_PACKAGE_ITEM: u16 = 16;

/// `description = package_declaration`
pub const PACKAGE_UNIT: u16 = 1;

/// `description = module_declaration`
pub const MODULE_UNIT: u16 = 2;

/// `description = interface_declaration`
pub const INTERFACE_UNIT: u16 = 3;

/// `description = package_import_declaration`
pub const IMPORT_UNIT: u16 = 4;

/// `description = type_declaration`
pub const TYPEDEF_UNIT: u16 = 5;

/// `description = parameter_declaration ";"`
pub const PARAMETERS_UNIT: u16 = 6;

/// `description = function_declaration`
pub const FUNCTION_UNIT: u16 = 7;

/// `description = task_declaration`
pub const TASK_UNIT: u16 = 8;
