// The names of a call script's items as `script_line` reads them: five bits a letter, a = 1, the first letter highest (`Spelled` spells each of them).
// Numbers and not letters: a match on byte strings, as `(b"insert", 3)`, was tried, and its proof didn't close.
pub const NEW: u64 = 14519;

pub const WORDS: u64 = 24627347;

pub const POKE: u64 = 540005;

pub const SETUP: u64 = 20107952;

pub const CHECK: u64 = 3413099;

pub const SEARCH: u64 = 642828392;

pub const READ: u64 = 594980;

pub const INSERT: u64 = 317298260;

pub const REMOVEKEY: u64 = 19977493195961;

pub const REMOVEAT: u64 = 624296662068;

pub const TRUNCATE: u64 = 707241543301;

pub const CLEAR: u64 = 3544114;

pub const SPLITAT: u64 = 20950863924;

pub const SPLITKEY: u64 = 670427655353;

pub const APPEND: u64 = 50861508;

pub const MIDDLE: u64 = 445780357;

pub const LEVEL: u64 = 12769452;

pub const LINKMAKE: u64 = 422462260581;

pub const LINKRAISE: u64 = 13518797579877;

pub const LINKLOWER: u64 = 13518791761074;

pub const DUMP: u64 = 153008;
