//! The numbers of those rows of the grammar that are told apart, by the table of `sv_tree`. The last row of a head has none.

/// `signing = "signed"`
pub const SIGNED: u16 = 97;

/// `type_keyword = "bit"`
pub const BIT: u16 = 89;

/// `type_keyword = "logic"`
pub const LOGIC: u16 = 90;

/// `type_keyword = "reg"`
pub const REG: u16 = 91;

/// `type_keyword = "byte"`
pub const BYTE: u16 = 92;

/// `type_keyword = "shortint"`
pub const SHORTINT: u16 = 93;

/// `type_keyword = "int"`
pub const INT: u16 = 94;

/// `type_keyword = "longint"`
pub const LONGINT: u16 = 95;

/// `struct_union = "struct"`
pub const STRUCT: u16 = 108;

/// `unary = unary_operator unary`
pub const UNARY_OPERATION: u16 = 394;

/// `unary_operator = "+"`
pub const UNARY_PLUS: u16 = 396;

/// `unary_operator = "-"`
pub const UNARY_MINUS: u16 = 397;

/// `unary_operator = "!"`
pub const UNARY_NOT: u16 = 398;

/// `unary_operator = "~"`
pub const UNARY_INVERT: u16 = 399;

/// `unary_operator = "&"`
pub const UNARY_AND: u16 = 400;

/// `unary_operator = "~&"`
pub const UNARY_NAND: u16 = 401;

/// `unary_operator = "|"`
pub const UNARY_OR: u16 = 402;

/// `unary_operator = "~|"`
pub const UNARY_NOR: u16 = 403;

/// `unary_operator = "^"`
pub const UNARY_XOR: u16 = 404;

/// `logical_or_rest = "||" logical_and`
pub const LOGICAL_OR: u16 = 346;

/// `logical_and_rest = "&&" bitwise_or`
pub const LOGICAL_AND: u16 = 348;

/// `bitwise_or_rest = "|" bitwise_xor`
pub const BITWISE_OR: u16 = 350;

/// `xor_operator = "^"`
pub const BITWISE_XOR: u16 = 353;

/// `xor_operator = "~^"`
pub const BITWISE_XNOR: u16 = 354;

/// `xor_operator = "^~"`
pub const OTHER_BITWISE_XNOR: u16 = 355;

/// `bitwise_and_rest = "&" equality`
pub const BITWISE_AND: u16 = 357;

/// `equality_operator = "=="`
pub const EQUAL: u16 = 360;

/// `equality_operator = "!="`
pub const NOT_EQUAL: u16 = 361;

/// `equality_operator = "==="`
pub const CASE_EQUAL: u16 = 362;

/// `equality_operator = "!=="`
pub const CASE_NOT_EQUAL: u16 = 363;

/// `equality_operator = "==?"`
pub const WILDCARD_EQUAL: u16 = 364;

/// `equality_operator = "!=?"`
pub const WILDCARD_NOT_EQUAL: u16 = 365;

/// `relation_rest = "inside" "{" value_ranges "}"`
pub const INSIDE: u16 = 368;

/// `relation_operator = "<"`
pub const LESS: u16 = 369;

/// `relation_operator = "<="`
pub const LESS_OR_EQUAL: u16 = 370;

/// `relation_operator = ">"`
pub const GREATER: u16 = 371;

/// `relation_operator = ">="`
pub const GREATER_OR_EQUAL: u16 = 372;

/// `shift_operator = "<<"`
pub const SHIFT_LEFT: u16 = 379;

/// `shift_operator = ">>"`
pub const SHIFT_RIGHT: u16 = 380;

/// `shift_operator = "<<<"`
pub const ARITHMETIC_SHIFT_LEFT: u16 = 381;

/// `shift_operator = ">>>"`
pub const ARITHMETIC_SHIFT_RIGHT: u16 = 382;

/// `sum_operator = "+"`
pub const ADD: u16 = 385;

/// `sum_operator = "-"`
pub const SUBTRACT: u16 = 386;

/// `product_operator = "*"`
pub const MULTIPLY: u16 = 389;

/// `product_operator = "/"`
pub const DIVIDE: u16 = 390;

/// `product_operator = "%"`
pub const REMAINDER: u16 = 391;

/// `part_select_operator = ":"`
pub const PART_RANGE: u16 = 339;

/// `part_select_operator = "+:"`
pub const PART_UP: u16 = 340;

/// `stream_operator = "<<"`
pub const STREAM_LEFT: u16 = 325;

/// `optional_slice_size = decimal`
pub const DECIMAL_SLICE: u16 = 328;

/// `optional_slice_size = keyword_type`
pub const KEYWORD_SLICE: u16 = 329;

/// `optional_slice_size = identifier optional_scoped_name`
pub const NAME_SLICE: u16 = 330;

/// `select = "." identifier`
pub const MEMBER_SELECT: u16 = 335;

/// `value_range = expression`
pub const VALUE_ITEM: u16 = 375;

/// `primary = decimal optional_size_rest`
pub const DECIMAL_PRIMARY: u16 = 407;

/// `primary = based`
pub const BASED_PRIMARY: u16 = 408;

/// `primary = fill`
pub const FILL_PRIMARY: u16 = 409;

/// `primary = "(" expression ")" optional_cast`
pub const PARENTHESIZED_PRIMARY: u16 = 410;

/// `primary = "{" primary_brace_rest`
pub const BRACED_PRIMARY: u16 = 411;

/// `primary = "'" "{" pattern_items "}"`
pub const PATTERN_PRIMARY: u16 = 412;

/// `primary = keyword_type dimensions optional_cast`
pub const TYPE_PRIMARY: u16 = 413;

/// `primary = signing cast`
pub const SIGNING_PRIMARY: u16 = 414;

/// `primary = system "(" expression ")"`
pub const SYSTEM_PRIMARY: u16 = 415;

/// `optional_size_rest = based`
pub const SIZED: u16 = 418;

/// `primary_brace_rest = stream_operator optional_slice_size "{" expressions "}" "}"`
pub const STREAM: u16 = 420;

/// `concatenation_rest = "{" expressions "}" "}"`
pub const REPLICATION: u16 = 422;

/// `arguments_or_selects = "(" optional_arguments ")"`
pub const ARGUMENTS: u16 = 426;

/// `cast_operand = "(" expression ")"`
pub const VALUE_CAST: u16 = 433;

/// `pattern_items = "default" ":" expression next_pattern_item`
pub const DEFAULT_FIRST: u16 = 435;

/// `pattern_rest = ":" expression next_pattern_item`
pub const KEYED_FIRST: u16 = 437;

/// `pattern_rest = "{" expressions "}"`
pub const PATTERN_REPLICATION: u16 = 438;

/// `pattern_item = "default" ":" expression`
pub const DEFAULT_ITEM: u16 = 441;

/// `data_type = keyword_type dimensions`
pub const KEYWORD_TYPE: u16 = 101;

/// `data_type = aggregate_type dimensions`
pub const AGGREGATE_TYPE: u16 = 102;

/// `aggregate_type = struct_union optional_packing "{" struct_union_members "}"`
pub const STRUCTURE: u16 = 106;

/// `optional_enum_base_type = keyword_type dimensions`
pub const KEYWORD_BASE: u16 = 118;
