use of_types::{EQUAL, MASTER, NO_CHANGE, SLAVE};
use role_fence::{RoleAnswer, RoleFence};

/// Requests by controller, role and generation, and the answers.
type Asked = (u8, u32, u64, RoleAnswer);

/// Whether such requests are answered so.
fn answers(fence: &mut RoleFence, cases: &[Asked]) -> bool {
    let mut so = true;
    for (from, role, generation, want) in cases {
        so = fence.role(*from, *role, *generation) == *want && so;
    }
    so
}

/// A second controller asks with an older generation.
const OLDER: &[Asked] = &[
    (
        1,
        MASTER,
        3,
        RoleAnswer::Reply {
            role: MASTER,
            generation: 3,
        },
    ),
    (0, MASTER, 2, RoleAnswer::Stale { seen: 3, asked: 2 }),
    (
        1,
        MASTER,
        3,
        RoleAnswer::Reply {
            role: MASTER,
            generation: 3,
        },
    ),
];

/// Whether controller 1 is the master of generation 3, and no other may command.
fn has_first(fence: &RoleFence) -> bool {
    fence.may_execute(1, 3)
        && !fence.may_execute(1, 2)
        && !fence.may_execute(0, 3)
        && fence.master() == Some(1)
        && fence.generation() == Some(3)
}

/// It is refused, and the first one may ask again, and may command.
#[test]
fn fences_an_older_generation(rt: HostRuntime) {
    let mut fence = RoleFence::new();
    assert!(rt; answers(&mut fence, OLDER) && has_first(&fence));
}

/// Roles before and after a change of master, and the end of 64 bits, past which generations go on.
const CHANGES: &[Asked] = &[
    (
        0,
        NO_CHANGE,
        0,
        RoleAnswer::Reply {
            role: EQUAL,
            generation: u64::MAX,
        },
    ),
    (0, 4, 0, RoleAnswer::BadRole),
    (
        0,
        MASTER,
        u64::MAX,
        RoleAnswer::Reply {
            role: MASTER,
            generation: u64::MAX,
        },
    ),
    (
        1,
        SLAVE,
        0,
        RoleAnswer::Reply {
            role: SLAVE,
            generation: 0,
        },
    ),
    (
        2,
        MASTER,
        1,
        RoleAnswer::Reply {
            role: MASTER,
            generation: 1,
        },
    ),
    (
        0,
        NO_CHANGE,
        0,
        RoleAnswer::Reply {
            role: SLAVE,
            generation: 1,
        },
    ),
    (
        0,
        EQUAL,
        0,
        RoleAnswer::Reply {
            role: EQUAL,
            generation: 1,
        },
    ),
    (
        2,
        SLAVE,
        u64::MAX,
        RoleAnswer::Stale {
            seen: 1,
            asked: u64::MAX,
        },
    ),
    (
        2,
        EQUAL,
        0,
        RoleAnswer::Reply {
            role: EQUAL,
            generation: 1,
        },
    ),
];

#[test]
fn changes_roles(rt: HostRuntime) {
    let mut fence = RoleFence::new();
    assert!(rt; answers(&mut fence, CHANGES) && fence.master().is_none());
}
