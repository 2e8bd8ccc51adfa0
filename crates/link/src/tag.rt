// The tags of a frame's fields: bytes, since one that is no tag is read too.
pub const OPENING: u8 = 0x10;

pub const WELCOME: u8 = 0x11;

pub const ORDER: u8 = 0x12;

pub const ACK: u8 = 0x13;

pub const REFUSE: u8 = 0x14;

pub const SETTINGS: u8 = 0x20;

pub const COMMAND: u8 = 0x21;

pub const RAISE: u8 = 0x22;

pub const LOWER: u8 = 0x23;
