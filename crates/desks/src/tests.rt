use crate::faults::{FormFault, Parameter};
use crate::group::{Group, GroupParameters};
use crate::set::DeskSet;

// Desks 0, 2 and 15.
#[test]
fn a_set_of_three(rt: HostRuntime) {
    let set = DeskSet::new(0b1000_0000_0000_0101);
    let cases = [
        (0, true),
        (1, false),
        (2, true),
        (14, false),
        (15, true),
        (16, false),
        (255, false),
    ];
    for (desk, there) in cases {
        assert_eq!(rt; set.has(desk), there);
    }
    assert_eq!(rt; set.size(), 3);
    assert_eq!(rt; set.reaches(15), true);
    assert_eq!(rt; set.reaches(16), false);
    assert_eq!(rt; DeskSet::new(5).reaches(2), true);
    assert_eq!(rt; DeskSet::new(5).reaches(3), false);
}

fn group(desks: u8, numbers: u8, faults: u8, factor: u8, faulty: u16) -> GroupParameters {
    GroupParameters {
        group: Group {
            desks,
            numbers,
            faults,
            faulty: DeskSet::new(faulty),
        },
        factor,
    }
}

// The ranges in their order, and then what the parameters say of each other.
#[test]
fn checks_a_group_in_order(rt: HostRuntime) {
    let ranges = [
        (
            group(1, 0, 6, 4, 0),
            Err(FormFault::Range(Parameter::Desks)),
        ),
        (
            group(17, 0, 6, 4, 0),
            Err(FormFault::Range(Parameter::Desks)),
        ),
        (
            group(2, 0, 6, 4, 0),
            Err(FormFault::Range(Parameter::Numbers)),
        ),
        (
            group(16, 65, 6, 4, 0),
            Err(FormFault::Range(Parameter::Numbers)),
        ),
        (
            group(2, 1, 6, 4, 0),
            Err(FormFault::Range(Parameter::Faults)),
        ),
        (
            group(16, 64, 5, 4, 0),
            Err(FormFault::Range(Parameter::Factor)),
        ),
        (group(16, 64, 5, 3, 0), Ok(())),
        (group(2, 1, 0, 5, 0), Ok(())),
    ];
    for (group, reply) in ranges {
        assert_eq!(rt; group.check_ranges(), reply);
    }
    let bounds = [
        (group(3, 1, 1, 3, 0b1111), Err(FormFault::Resilience(1))),
        (group(4, 1, 1, 3, 0b1_0000), Err(FormFault::FaultySet(1))),
        (group(4, 1, 1, 3, 0b11), Err(FormFault::FaultySet(2))),
        (group(4, 1, 1, 3, 0b1000), Ok(())),
    ];
    for (group, reply) in bounds {
        assert_eq!(rt; group.check_bounds(), reply);
    }
}
