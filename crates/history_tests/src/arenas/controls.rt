//! Rows worked out by hand, and the ends of the ranges.
use crate::asserts::same;
use control_set::ControlSet;
use market_types::{ControlId, Fault, LastNumber};
use std::process::Abort;
use std::rt::HostRuntime;

/// What making a control of this value gives, where there is memory.
fn made(
    rt: &impl Abort,
    controls: &mut ControlSet,
    value: u32,
    last: LastNumber,
) -> Result<ControlId, Fault> {
    let Ok(made) = controls.make(value, last) else {
        panic!(rt; "no memory");
    };
    made
}

#[test]
fn least_value_counts(rt: HostRuntime) {
    let mut controls = ControlSet::new(rt.alloc());
    same(&rt, controls.active_value(8), 8);
    same(
        &rt,
        made(&rt, &mut controls, 4, LastNumber::USUAL),
        Ok(ControlId::new(1)),
    );
    same(
        &rt,
        made(&rt, &mut controls, 2, LastNumber::USUAL),
        Ok(ControlId::new(2)),
    );
    same(&rt, controls.active_value(8), 2);
    same(&rt, controls.remove(ControlId::new(2)), Ok(()));
    same(&rt, controls.active_value(8), 4);
    same(
        &rt,
        controls.remove(ControlId::new(2)),
        Err(Fault::NoControl),
    );
    same(&rt, controls.remove(ControlId::new(1)), Ok(()));
    same(&rt, controls.active_value(8), 8);
    drop(controls);
}

#[test]
fn values_and_places_are_bounded(rt: HostRuntime) {
    let mut controls = ControlSet::new(rt.alloc());
    for number in 1..=256 {
        same(
            &rt,
            made(&rt, &mut controls, 65536, LastNumber::USUAL),
            Ok(ControlId::new(number)),
        );
    }
    same(
        &rt,
        made(&rt, &mut controls, 0, LastNumber::USUAL),
        Err(Fault::BadValue),
    );
    same(
        &rt,
        made(&rt, &mut controls, 65537, LastNumber::USUAL),
        Err(Fault::BadValue),
    );
    same(
        &rt,
        made(&rt, &mut controls, 1, LastNumber::USUAL),
        Err(Fault::TooManyControls),
    );
    same(&rt, controls.active_value(8), 65536);
    drop(controls);
}

#[test]
fn numbers_run_out_where_they_are_told_to(rt: HostRuntime) {
    let mut controls = ControlSet::new(rt.alloc());
    let Some(last) = LastNumber::new(3) else {
        panic!(&rt; "no last number");
    };
    for number in 1..=3 {
        same(
            &rt,
            made(&rt, &mut controls, 2, last),
            Ok(ControlId::new(number)),
        );
    }
    same(
        &rt,
        made(&rt, &mut controls, 2, last),
        Err(Fault::OutOfNumbers),
    );
    same(&rt, made(&rt, &mut controls, 0, last), Err(Fault::BadValue));
    drop(controls);
}

#[test]
fn numbers_run_out(rt: HostRuntime) {
    let mut controls = ControlSet::new(rt.alloc());
    for number in 1..=1_048_576 {
        same(
            &rt,
            made(&rt, &mut controls, 2, LastNumber::USUAL),
            Ok(ControlId::new(number)),
        );
        same(&rt, controls.remove(ControlId::new(number)), Ok(()));
    }
    same(
        &rt,
        made(&rt, &mut controls, 2, LastNumber::USUAL),
        Err(Fault::OutOfNumbers),
    );
    same(&rt, controls.active_value(8), 8);
    drop(controls);
}

/// A refused growth changes nothing: what is made when it is asked for again is what was due.
#[test]
fn refused_growth_changes_nothing(rt: HostRuntime) {
    let mut controls = ControlSet::new(rt.alloc());
    for number in 1..=40 {
        let before = controls.active_value(64);
        let made = match controls.make(60 - number, LastNumber::USUAL) {
            Ok(made) => made,
            Err(_) => {
                same(&rt, controls.active_value(64), before);
                made(&rt, &mut controls, 60 - number, LastNumber::USUAL)
            }
        };
        same(&rt, made, Ok(ControlId::new(number)));
        same(&rt, controls.active_value(64), 60 - number);
    }
    drop(controls);
}
