// "Kind codes", by the names of `Kinds.antt`.
// Kept: numbers, as the arrays hold them that C lends; their enum is `Token`.
pub const SPACE: u8 = 0;

pub const BLANK: u8 = 1;

pub const SHEBANG: u8 = 2;

pub const LINE_COMMENT: u8 = 3;

pub const IDENT: u8 = 4;

pub const PLAIN_DOUBLE: u8 = 5;

pub const PLAIN_TRIPLE: u8 = 6;

pub const FORMAT_DOUBLE: u8 = 7;

pub const FORMAT_TRIPLE: u8 = 8;

pub const QUOTE_CLOSE: u8 = 9;

pub const STRING_INNER: u8 = 10;

pub const SINGLE: u8 = 11;

pub const UNICODE4: u8 = 12;

pub const UNICODE_DELIM: u8 = 13;

pub const HOLE_OPEN: u8 = 14;

pub const HOLE_CLOSE: u8 = 15;

pub const NUM_HEXADECIMAL: u8 = 16;

pub const NUM_BINARY: u8 = 17;

pub const NUM_DECIMAL: u8 = 18;

pub const KW_AND: u8 = 19;

pub const KW_ASSERT: u8 = 20;

pub const KW_FALSE: u8 = 21;

pub const KW_FOR: u8 = 22;

pub const KW_ELSE: u8 = 23;

pub const KW_IF: u8 = 24;

pub const KW_IMPORT: u8 = 25;

pub const KW_IN: u8 = 26;

pub const KW_LET: u8 = 27;

pub const KW_NOT: u8 = 28;

pub const KW_NULL: u8 = 29;

pub const KW_OR: u8 = 30;

pub const KW_TRACE: u8 = 31;

pub const KW_TRUE: u8 = 32;

pub const L_PAREN: u8 = 33;

pub const R_PAREN: u8 = 34;

pub const L_BRACKET: u8 = 35;

pub const R_BRACKET: u8 = 36;

pub const L_BRACE: u8 = 37;

pub const R_BRACE: u8 = 38;

pub const LT: u8 = 39;

pub const GT: u8 = 40;

pub const LT_EQ: u8 = 41;

pub const GT_EQ: u8 = 42;

pub const EQ2: u8 = 43;

pub const NEQ: u8 = 44;

pub const THIN_ARROW: u8 = 45;

pub const FAT_ARROW: u8 = 46;

pub const EQ1: u8 = 47;

pub const BANG: u8 = 48;

pub const STAR: u8 = 49;

pub const PLUS: u8 = 50;

pub const COMMA: u8 = 51;

pub const MINUS: u8 = 52;

pub const DOT: u8 = 53;

pub const DOT_DOT: u8 = 54;

pub const DOT_DOT_DOT: u8 = 55;

pub const SLASH: u8 = 56;

pub const COLON: u8 = 57;

pub const SEMICOLON: u8 = 58;

pub const PIPE: u8 = 59;
