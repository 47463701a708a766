// IPDR/SP 2.2's messages: what each says, its number, and how many octets stand in front of its text or record. The names of fields, and
// the sections, are those of document 002.

// The version that the header of every message names.
pub const VERSION: u8 = 2;

// The octets of the length in front of a text or a record.
pub const LENGTH_OCTETS: usize = 4;

// The octets of a FLOW STOP or a SESSION STOP in front of its text and the text's length.
pub const STOP_FIXED: usize = 10;

// The octets of a CONNECT in front of its text and the text's length.
pub const CONNECT_FIXED: usize = 22;

// The octets of a CONNECT RESPONSE in front of its text and the text's length.
pub const CONNECT_RESPONSE_FIXED: usize = 16;

// The octets of a SESSION START.
pub const SESSION_START_OCTETS: usize = 53;

// The octets of a DATA in front of its record and the record's length.
pub const DATA_FIXED: usize = 21;

// The octets of a DATA ACKNOWLEDGE.
pub const DATA_ACKNOWLEDGE_OCTETS: usize = 18;

// The octets of an ERROR in front of its text and the text's length.
pub const ERROR_FIXED: usize = 14;

// The most octets that a text or a record has in a message that is written.
pub const MAX_PART_OCTETS: usize = 1024;

// What a CONNECT says in front of its text (4.1.1).
#[derive(Clone, Copy, Debug, PartialEq, Eq)]
pub struct Connect {
    pub initiator_id: u32,
    pub initiator_port: u16,
    pub capabilities: u32,
    pub keep_alive_interval: u32,
}

// What a SESSION START says (4.3.2). documentId, 16 octets, is two numbers: its first eight octets and its last eight.
#[derive(Clone, Copy, Debug, PartialEq, Eq)]
pub struct SessionStart {
    pub exporter_boot_time: u32,
    pub first_record_sequence_number: u64,
    pub dropped_record_count: u64,
    pub primary: bool,
    pub ack_time_interval: u32,
    pub ack_sequence_interval: u32,
    pub document_id_high: u64,
    pub document_id_low: u64,
}

// What a DATA says in front of its record (4.5.1); `duplicate` is the lowest of its flags.
#[derive(Clone, Copy, Debug, PartialEq, Eq)]
pub struct DataHead {
    pub template_id: u16,
    pub config_id: u16,
    pub duplicate: bool,
    pub sequence_num: u64,
}

// What a message says beside its session. A text (vendorId, reasonInfo, description) and DATA's record are not in it: reading hands them
// back as a part of the message, writing takes them beside it.
#[derive(Clone, Copy, Debug, PartialEq, Eq)]
pub enum Content {
    // 4.3.1
    FlowStart,
    // 4.3.3, then reasonInfo
    FlowStop {
        reason_code: u16,
    },
    // 4.1.1, then vendorId
    Connect(Connect),
    // 4.1.2, then vendorId
    ConnectResponse {
        capabilities: u32,
        keep_alive_interval: u32,
    },
    // 4.1.3
    Disconnect,
    // 4.3.2
    SessionStart(SessionStart),
    // 4.3.4, then reasonInfo
    SessionStop {
        reason_code: u16,
    },
    // 4.5.1, then dataRecord
    Data(DataHead),
    // 4.5.2
    DataAcknowledge {
        config_id: u16,
        sequence_num: u64,
    },
    // 4.2.1, then description
    Error {
        time_stamp: u32,
        error_code: u16,
    },
}

// A message: its session and what it says.
#[derive(Clone, Copy, Debug, PartialEq, Eq)]
pub struct Message {
    pub session: u8,
    pub content: Content,
}

// The numbers of the messages: constants and no second enum, since a header may hold any octet, and reading matches on it once.
impl Message {
    // FLOW START: no fields.
    pub const FLOW_START: u8 = 0x01;

    // FLOW STOP: a reason code and a text.
    pub const FLOW_STOP: u8 = 0x03;

    // CONNECT: what `Connect` says, then a text.
    pub const CONNECT: u8 = 0x05;

    // CONNECT RESPONSE: capabilities, the keep alive interval and a text.
    pub const CONNECT_RESPONSE: u8 = 0x06;

    // DISCONNECT: no fields.
    pub const DISCONNECT: u8 = 0x07;

    // SESSION START: what `SessionStart` says.
    pub const SESSION_START: u8 = 0x08;

    // SESSION STOP: a reason code and a text.
    pub const SESSION_STOP: u8 = 0x09;

    // DATA: what `DataHead` says, then a record.
    pub const DATA: u8 = 0x20;

    // DATA ACKNOWLEDGE: a Configuration ID and a sequence number.
    pub const DATA_ACKNOWLEDGE: u8 = 0x21;

    // ERROR: a time, an error code and a text.
    pub const ERROR: u8 = 0x23;
}
