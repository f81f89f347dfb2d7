// A refusal in words.
use super::fault::StoreFault;
use std::test::Fail;

#[test]
fn a_fault_in_words(rt: HostRuntime) -> Result<(), Fail> {
    let words = format!(in rt.alloc(); "{}", StoreFault::NoVersion(3))?;
    assert_eq!(rt;
        words.as_str(),
        "number 9, layer store, place 3: no version at the place"
    );
    Ok(())
}
