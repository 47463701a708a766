// CRANE's messages: what each says, its number, and the lengths of its parts.
use headers::header::HEADER_OCTETS;

// The octets of a DATA message's body in front of its record.
pub const DATA_FRONT_OCTETS: usize = 8;

// The octets of a DATA message in front of its record.
pub const DATA_HEAD_OCTETS: usize = HEADER_OCTETS + DATA_FRONT_OCTETS;

// The octets of a START ACK's body: the boot time.
pub const START_ACK_BODY: usize = 4;

// The octets of a START ACK.
pub const START_ACK_OCTETS: usize = HEADER_OCTETS + START_ACK_BODY;

// The octets of a FINAL TMPL DATA ACK's body: Configuration ID and 3 reserved octets.
pub const FINAL_TMPL_DATA_ACK_BODY: usize = 4;

// The octets of a FINAL TMPL DATA ACK.
pub const FINAL_TMPL_DATA_ACK_OCTETS: usize = HEADER_OCTETS + FINAL_TMPL_DATA_ACK_BODY;

// The octets of a DATA ACK's body: DSN, Configuration ID and 3 reserved octets.
pub const DATA_ACK_BODY: usize = 8;

// The octets of a DATA ACK.
pub const DATA_ACK_OCTETS: usize = HEADER_OCTETS + DATA_ACK_BODY;

// The most octets that a record has in a message that is written.
pub const MAX_RECORD_OCTETS: usize = 1024;

// The version that the header of every message names.
pub const VERSION: u8 = 1;

// The S flag of a DATA message, `first` in its head.
pub const S_FLAG: u8 = 1;

// The D flag of a DATA message, `duplicate` in its head.
pub const D_FLAG: u8 = 2;

// What a DATA message says in front of its record; `first` is its S flag, `duplicate` its D flag.
#[derive(Clone, Copy, Debug, PartialEq, Eq)]
pub struct DataHead {
    pub session: u8,
    pub template: u16,
    pub config: u8,
    pub first: bool,
    pub duplicate: bool,
    pub dsn: u32,
}

// What a message says. A TMPL DATA's table and a DATA's record are not in it: reading hands them back as a part of the message, writing
// takes them beside it.
#[derive(Clone, Copy, Debug, PartialEq, Eq)]
pub enum Message {
    Start { session: u8 },
    StartAck { session: u8, boot_time: u32 },
    Stop { session: u8 },
    StopAck { session: u8 },
    TmplData { session: u8 },
    FinalTmplDataAck { session: u8, config: u8 },
    StartNegotiate { session: u8 },
    StartNegotiateAck { session: u8 },
    Data(DataHead),
    DataAck { session: u8, dsn: u32, config: u8 },
}

// The numbers of the messages: constants and no second enum, since a header may hold any octet, and reading matches on it once.
impl Message {
    // START: no body.
    pub const START: u8 = 0x01;

    // START ACK: the boot time.
    pub const START_ACK: u8 = 0x02;

    // STOP: no body.
    pub const STOP: u8 = 0x03;

    // STOP ACK: no body.
    pub const STOP_ACK: u8 = 0x04;

    // TMPL DATA: a template table.
    pub const TMPL_DATA: u8 = 0x10;

    // FINAL TMPL DATA ACK: a Configuration ID.
    pub const FINAL_TMPL_DATA_ACK: u8 = 0x13;

    // START NEGOTIATE: no body.
    pub const START_NEGOTIATE: u8 = 0x18;

    // START NEGOTIATE ACK: no body.
    pub const START_NEGOTIATE_ACK: u8 = 0x19;

    // DATA: what `DataHead` says, then a record.
    pub const DATA: u8 = 0x20;

    // DATA ACK: a DSN and a Configuration ID.
    pub const DATA_ACK: u8 = 0x21;
}
