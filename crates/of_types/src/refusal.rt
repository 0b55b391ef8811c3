//! The errors of OpenFlow 1.3 that are answered here (7.4.4). Where the standard leaves open which cause
//! has which error, the choice is this project's.

/// The type and the code of an error (7.4.4), as an ERROR message tells them.
#[derive(Clone, Copy, PartialEq, Eq, Debug)]
pub struct Refusal {
    pub kind: u16,
    pub code: u16,
}

/// The type of the errors of a match (7.4.4.5): OFPET_BAD_MATCH.
pub const BAD_MATCH: u16 = 4;

/// The version is another (7.4.4.2): OFPBRC_BAD_VERSION.
pub const BAD_VERSION: Refusal = Refusal { kind: 1, code: 0 };

/// The message is none that its receiver takes (7.4.4.2): OFPBRC_BAD_TYPE.
pub const BAD_TYPE: Refusal = Refusal { kind: 1, code: 1 };

/// The experimenter isn't known (7.4.4.2): OFPBRC_BAD_EXPERIMENTER.
pub const BAD_EXPERIMENTER: Refusal = Refusal { kind: 1, code: 3 };

/// The experimenter has no message of this type (7.4.4.2): OFPBRC_BAD_EXP_TYPE.
pub const BAD_EXPERIMENTER_TYPE: Refusal = Refusal { kind: 1, code: 4 };

/// The message isn't permitted in this form or place (7.4.4.2): OFPBRC_EPERM.
pub const NOT_PERMITTED: Refusal = Refusal { kind: 1, code: 5 };

/// A length is wrong (7.4.4.2): OFPBRC_BAD_LEN.
pub const BAD_LENGTH: Refusal = Refusal { kind: 1, code: 6 };

/// No such buffered packet is there (7.4.4.2): OFPBRC_BUFFER_UNKNOWN.
pub const UNKNOWN_BUFFER: Refusal = Refusal { kind: 1, code: 8 };

/// The sender isn't master (7.4.4.2): OFPBRC_IS_SLAVE.
pub const NOT_MASTER: Refusal = Refusal { kind: 1, code: 10 };

/// The packet is no frame (7.4.4.2): OFPBRC_BAD_PACKET.
pub const BAD_PACKET: Refusal = Refusal { kind: 1, code: 12 };

/// The action is none that is known (7.4.4.3): OFPBAC_BAD_TYPE.
pub const BAD_ACTION: Refusal = Refusal { kind: 2, code: 0 };

/// The length of an action is wrong (7.4.4.3): OFPBAC_BAD_LEN.
pub const BAD_ACTION_LENGTH: Refusal = Refusal { kind: 2, code: 1 };

/// An output goes to no port that may stand there (7.4.4.3): OFPBAC_BAD_OUT_PORT.
pub const BAD_OUT_PORT: Refusal = Refusal { kind: 2, code: 4 };

/// The instruction isn't supported (7.4.4.4): OFPBIC_UNSUP_INST.
pub const BAD_INSTRUCTION: Refusal = Refusal { kind: 3, code: 1 };

/// The type of the match is another (7.4.4.5): OFPBMC_BAD_TYPE.
pub const BAD_MATCH_TYPE: Refusal = Refusal {
    kind: BAD_MATCH,
    code: 0,
};

/// The length of the match or of one of its fields is wrong (7.4.4.5): OFPBMC_BAD_LEN.
pub const BAD_MATCH_LENGTH: Refusal = Refusal {
    kind: BAD_MATCH,
    code: 1,
};

/// A value has bits outside its mask (7.4.4.5): OFPBMC_BAD_WILDCARDS.
pub const BAD_WILDCARD: Refusal = Refusal {
    kind: BAD_MATCH,
    code: 5,
};

/// A field isn't known, or isn't there (7.4.4.5): OFPBMC_BAD_FIELD.
pub const BAD_FIELD: Refusal = Refusal {
    kind: BAD_MATCH,
    code: 6,
};

/// A mask stands where none may (7.4.4.5): OFPBMC_BAD_MASK.
pub const BAD_MASK: Refusal = Refusal {
    kind: BAD_MATCH,
    code: 8,
};

/// A field stands without the one that it needs (7.4.4.5): OFPBMC_BAD_PREREQ.
pub const BAD_PREREQUISITE: Refusal = Refusal {
    kind: BAD_MATCH,
    code: 9,
};

/// A field stands twice (7.4.4.5): OFPBMC_DUP_FIELD.
pub const REPEATED_FIELD: Refusal = Refusal {
    kind: BAD_MATCH,
    code: 10,
};

/// The table is full (7.4.4.6): OFPFMFC_TABLE_FULL.
pub const TABLE_FULL: Refusal = Refusal { kind: 5, code: 1 };

/// There is no such table (7.4.4.6): OFPFMFC_BAD_TABLE_ID.
pub const BAD_TABLE: Refusal = Refusal { kind: 5, code: 2 };

/// The command of a FLOW_MOD isn't known (7.4.4.6): OFPFMFC_BAD_COMMAND.
pub const BAD_COMMAND: Refusal = Refusal { kind: 5, code: 6 };

/// A flag isn't supported (7.4.4.6): OFPFMFC_BAD_FLAGS.
pub const BAD_FLAGS: Refusal = Refusal { kind: 5, code: 7 };

/// The generation of a request for a role is stale (7.4.4.12): OFPRRFC_STALE.
pub const STALE_ROLE: Refusal = Refusal { kind: 11, code: 0 };

/// There is no such role (7.4.4.12): OFPRRFC_BAD_ROLE.
pub const BAD_ROLE: Refusal = Refusal { kind: 11, code: 2 };
