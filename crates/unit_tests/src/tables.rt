use crate::changes::{ADD, ANY, Change, at_port, flow_mod};
use flow_index::FlowIndex;
use flow_table::{FlowTable, Rows, TableFault};
use of_types::{FlowCommand, Masked48, Match, ONES48, Row, TO_CONTROLLER};
use std::alloc::{AllocError, Global};

/// The match of all frames to 02:00:00:00:00:01.
const TO_FIRST: Match = Match {
    eth_dst: Some(Masked48 {
        value: 0x0200_0000_0001,
        mask: ONES48,
    }),
    ..ANY
};

/// The match of all frames to an address that begins with 02:00.
const TO_NEAR: Match = Match {
    eth_dst: Some(Masked48 {
        value: 0x0200_0000_0000,
        mask: 0xffff_0000_0000,
    }),
    ..ANY
};

const FROM_PORT_1: Match = Match {
    in_port: Some(1),
    ..ANY
};

const FROM_PORT_2: Match = Match {
    in_port: Some(2),
    ..ANY
};

const DELETE: Change = Change {
    command: FlowCommand::Delete,
    ..ADD
};

/// One row more than a full table has. Each change below has one fault more, which is told first.
const FULL: Change = Change {
    priority: 2048,
    ..ADD
};

const BAD_PORT: Change = Change { output: 3, ..FULL };

const BAD_BUFFER: Change = Change {
    buffer: 7,
    ..BAD_PORT
};

const BAD_FLAGS: Change = Change {
    flags: 2,
    ..BAD_BUFFER
};

const BAD_TABLE: Change = Change {
    table: 0xff,
    ..BAD_FLAGS
};

/// A row that is there.
const AGAIN: Change = Change { priority: 9, ..ADD };

/// Timeouts, and the flag that asks for a FLOW_REMOVED, are no faults.
const TIMED: Change = Change {
    idle: 1,
    hard: 1,
    flags: 1,
    ..AGAIN
};

/// A deletion of that row from any table. It is not asked for its output.
const DELETE_IT: Change = Change {
    command: FlowCommand::DeleteStrict,
    table: 0xff,
    output: 3,
    ..AGAIN
};

/// Changes of a full table, and the answers.
const ANSWERS: &[(Change, Result<(), TableFault>)] = &[
    (BAD_TABLE, Err(TableFault::BadTable)),
    (BAD_FLAGS, Err(TableFault::BadFlags)),
    (BAD_BUFFER, Err(TableFault::BadBuffer)),
    (BAD_PORT, Err(TableFault::BadPort)),
    (FULL, Err(TableFault::TableFull)),
    (TIMED, Ok(())),
    (AGAIN, Ok(())),
    (DELETE_IT, Ok(())),
    (FULL, Ok(())),
    (AGAIN, Err(TableFault::TableFull)),
];

/// Whether a change is answered so.
fn answers(
    alloc: Global,
    table: &mut impl Rows,
    change: &Change,
    want: Result<(), TableFault>,
) -> Result<bool, AllocError> {
    let change = flow_mod(alloc, change)?;
    Ok(table.apply(&change, 2) == want)
}

/// Whether a table takes 2,047 rows.
fn fills(alloc: Global, table: &mut impl Rows) -> Result<bool, AllocError> {
    let mut change = ADD;
    for priority in 1..2048 {
        change.priority = priority;
        if !answers(alloc, table, &change, Ok(()))? {
            return Ok(false);
        }
    }
    Ok(true)
}

/// A table has 2,048 rows at most.
fn refuses(alloc: Global, table: &mut impl Rows) -> Result<bool, AllocError> {
    let mut so = fills(alloc, table)?;
    for (change, want) in ANSWERS {
        so = answers(alloc, table, change, *want)? && so;
    }
    Ok(so)
}

/// Whether a row has this cookie and these outputs.
fn is_row(row: &Row, cookie: u64, outputs: &[u32]) -> bool {
    row.cookie == cookie && row.actions.as_slice() == outputs
}

/// Whether the frame meets a row of this cookie and these outputs.
fn meets(table: &impl Rows, port: u32, cookie: u64, outputs: &[u32]) -> bool {
    match table.look_up(&at_port(port)) {
        Some(row) => is_row(row, cookie, outputs),
        None => false,
    }
}

/// Whether the row at a place has this cookie.
fn has_cookie(rows: &[Row], place: usize, cookie: u64) -> bool {
    match rows.get(place) {
        Some(row) => row.cookie == cookie,
        None => false,
    }
}

/// Whether rows have these cookies, in their order.
fn have_cookies(rows: &[Row], cookies: &[u64]) -> bool {
    for place in 0..cookies.len() {
        if !has_cookie(rows, place, cookies[place]) {
            return false;
        }
    }
    rows.len() == cookies.len()
}

/// A change that is accepted, and the cookie and outputs of the row that the frame then meets at port 1.
type Met = (Change, u64, &'static [u32]);

/// Plays such changes. Then the rows have these cookies.
fn plays(
    alloc: Global,
    table: &mut impl Rows,
    steps: &[Met],
    cookies: &[u64],
) -> Result<bool, AllocError> {
    let mut so = true;
    for (change, cookie, outputs) in steps {
        so = answers(alloc, table, change, Ok(()))? && meets(table, 1, *cookie, *outputs) && so;
    }
    let rows = table.rows()?;
    Ok(so && have_cookies(rows.as_slice(), cookies))
}

const BY_PORT: Change = Change {
    priority: 5,
    cookie: 1,
    matching: FROM_PORT_1,
    ..ADD
};

const BY_ADDRESS: Change = Change {
    cookie: 2,
    matching: TO_FIRST,
    ..BY_PORT
};

/// The first of these once more.
const IN_ITS_PLACE: Change = Change {
    cookie: 3,
    output: TO_CONTROLLER,
    ..BY_PORT
};

const OTHER_OUTPUT: Change = Change {
    command: FlowCommand::ModifyStrict,
    output: 2,
    ..BY_ADDRESS
};

const WITHOUT_IT: Change = Change {
    command: FlowCommand::DeleteStrict,
    ..BY_PORT
};

/// Of two rows of one priority the first is chosen, whether it asks for the input port or for the
/// destination; an ADD of its match and priority takes its place.
const TIES: &[Met] = &[
    (BY_PORT, 1, &[1]),
    (BY_ADDRESS, 1, &[1]),
    (IN_ITS_PLACE, 3, &[TO_CONTROLLER]),
    (OTHER_OUTPUT, 3, &[TO_CONTROLLER]),
    (WITHOUT_IT, 2, &[2]),
    (BY_PORT, 2, &[2]),
];

const OPEN: Change = Change {
    priority: 1,
    cookie: 0x11,
    ..ADD
};

const EXACT: Change = Change {
    priority: 2,
    cookie: 0x12,
    matching: TO_FIRST,
    ..ADD
};

const MASKED: Change = Change {
    priority: 3,
    cookie: 0x21,
    matching: TO_NEAR,
    ..ADD
};

const ELSEWHERE: Change = Change {
    priority: 9,
    cookie: 0x22,
    matching: FROM_PORT_2,
    ..ADD
};

/// The rows whose cookies begin so.
const MODIFY: Change = Change {
    command: FlowCommand::Modify,
    cookie: 0x20,
    cookie_mask: 0xf0,
    output: 2,
    ..ADD
};

/// Those of them that have an output to port 2 and whose frames all go to such addresses.
const DELETE_MASKED: Change = Change {
    command: FlowCommand::Delete,
    out_port: 2,
    matching: TO_NEAR,
    ..MODIFY
};

const DELETE_EXACT: Change = Change {
    matching: TO_FIRST,
    ..DELETE
};

/// Rows of higher priority are met first, whatever they ask for. A MODIFY and a DELETE name rows by a match
/// that covers theirs, by the cookie under the mask, and a DELETE by an output.
const NAMED: &[Met] = &[
    (OPEN, 0x11, &[1]),
    (EXACT, 0x12, &[1]),
    (MASKED, 0x21, &[1]),
    (ELSEWHERE, 0x21, &[1]),
    (MODIFY, 0x21, &[2]),
    (DELETE_MASKED, 0x12, &[1]),
    (DELETE_EXACT, 0x11, &[1]),
];

/// What is played of a table.
#[derive(Clone, Copy)]
enum Run {
    Refuses,
    Chooses,
    Names,
}

/// Whether a run goes as it should. Behind the last one the row of port 2 has its new output.
fn goes(alloc: Global, table: &mut impl Rows, run: Run) -> Result<bool, AllocError> {
    match run {
        Run::Refuses => refuses(alloc, table),
        Run::Chooses => plays(alloc, table, TIES, &[0, 2, 1]),
        Run::Names => Ok(
            plays(alloc, table, NAMED, &[0, 0x11, 0x22])? && meets(table, 2, 0x22, &[2]),
        ),
    }
}

fn goes_by_table(alloc: Global, run: Run) -> Result<bool, AllocError> {
    let mut table = FlowTable::new(alloc)?;
    let so = goes(alloc, &mut table, run);
    drop(table);
    so
}

fn goes_by_index(alloc: Global, run: Run) -> Result<bool, AllocError> {
    let mut index = FlowIndex::new(alloc)?;
    let so = goes(alloc, &mut index, run);
    drop(index);
    so
}

/// Whether a run goes so on both forms of a table.
fn goes_by_both(alloc: Global, run: Run) -> bool {
    goes_by_table(alloc, run) == Ok(true) && goes_by_index(alloc, run) == Ok(true)
}

#[test]
fn tables_refuse_in_order(rt: HostRuntime) {
    assert!(rt; goes_by_both(rt.alloc(), Run::Refuses));
}

#[test]
fn tables_choose_the_first_of_equals(rt: HostRuntime) {
    assert!(rt; goes_by_both(rt.alloc(), Run::Chooses));
}

#[test]
fn tables_name_rows(rt: HostRuntime) {
    assert!(rt; goes_by_both(rt.alloc(), Run::Names));
}
