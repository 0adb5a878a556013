//! A prepare and a commit, which are run outside the gate with each allocation refused in turn:
//! where one of these is refused, the prepare tells.

use crate::bench::{OURS, delete_of, set_of, two};
use crate::desk::{again, empty_desk, has, has_names, lacks, set};
use std::test::Fail;

#[test]
fn a_prepare_alone_may_lack_memory(rt: HostRuntime) -> Result<(), Fail> {
    let mut desk = empty_desk(&rt)?;
    set(&rt, &mut desk, "A", &[1])?;
    let batch = two(
        &rt,
        set_of(&rt, OURS, "B", &[2])?,
        delete_of(&rt, OURS, "A")?,
    )?;
    if !desk.try_commit(&rt, &batch)? {
        assert!(rt; has(&desk, "A", &[1]) && lacks(&desk, "B"));
        assert!(rt;
            desk.try_commit(&rt, &batch)?,
            "the next prepare has memory"
        );
    }
    assert!(rt; lacks(&desk, "A") && has(&desk, "B", &[2]));
    assert!(rt; has_names(&rt, &desk, &["B"])?);
    let desk = again(&rt, desk)?;
    assert!(rt; lacks(&desk, "A") && has(&desk, "B", &[2]));
    Ok(())
}
