// Lists of targets and their labels.
use super::{Label, LabelFault, labels};
use kinds::Target;
use std::process::Abort;
use std::test::Fail;

const fn target(number: u16, range: u32) -> Target {
    Target { number, range }
}

fn labelled(rt: &impl Abort, targets: &[Target; 3], positions: [usize; 3]) {
    let mut out = [Label::default(); 5];
    assert_eq!(rt; labels(targets, &mut out), Ok(3));
    assert_eq!(rt; [out[0].number, out[1].number, out[2].number], [9, 7, 4]);
    assert_eq!(rt; [out[0].range, out[1].range, out[2].range], [250, 250, 900]);
    assert_eq!(rt;
        [out[0].position, out[1].position, out[2].position],
        positions
    );
    assert_eq!(rt; [out[3], out[4]], [Label::default(); 2]);
}

#[test]
fn nearest_first_and_ties_as_listed(rt: HostRuntime) {
    labelled(
        &rt,
        &[target(9, 250), target(7, 250), target(4, 900)],
        [0, 1, 2],
    );
    labelled(
        &rt,
        &[target(4, 900), target(9, 250), target(7, 250)],
        [1, 2, 0],
    );
    labelled(
        &rt,
        &[target(9, 250), target(4, 900), target(7, 250)],
        [0, 2, 1],
    );
}

#[test]
fn an_output_that_is_just_long_enough(rt: HostRuntime) {
    let mut out = [Label::default(); 2];
    assert_eq!(rt; labels(&[target(4, 900), target(9, 250)], &mut out), Ok(2));
    assert_eq!(rt; [out[0].number, out[1].number], [9, 4]);
}

#[test]
fn an_output_that_is_too_short_stays(rt: HostRuntime) {
    let mut out = [Label::default(); 1];
    let refused = labels(&[target(4, 900), target(9, 250)], &mut out);
    assert_eq!(rt; refused, Err(LabelFault::OutputTooShort));
    assert_eq!(rt; LabelFault::OutputTooShort.number(), 18);
    assert_eq!(rt; out, [Label::default()]);
}

#[test]
fn no_targets(rt: HostRuntime) {
    let mut out = [Label::default(); 1];
    assert_eq!(rt; labels(&[], &mut out), Ok(0));
    assert_eq!(rt; out, [Label::default()]);
    assert_eq!(rt; labels(&[], &mut []), Ok(0));
}

#[test]
fn a_fault_in_words(rt: HostRuntime) -> Result<(), Fail> {
    let words = format!(in rt.alloc(); "{}", LabelFault::OutputTooShort)?;
    assert_eq!(rt;
        words.as_str(),
        "number 18, layer agenda, place 0: the output is too short"
    );
    Ok(())
}
