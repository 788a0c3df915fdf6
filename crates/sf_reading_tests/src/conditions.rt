//! `conditions` once, with ample memory. What programs break is tested in sf_cli, where they are
//! read from texts.

use sf_calls::reach;
use sf_core::{Links, Proc, Program};
use sf_vars::conditions;
use std::test::Fail;

#[test]
fn an_empty_program_breaks_nothing(rt: HostRuntime) -> Result<(), Fail> {
    let alloc = rt.alloc();
    let fields = Vec::new(alloc);
    let links = Links::among(&fields);
    let procedures = Vec::new(alloc);
    let init = Proc::init_among(&procedures);
    let p = Program {
        fields,
        resources: Vec::new(alloc),
        procedures,
        links,
        init,
    };
    let calls = reach(alloc, &p)?;
    assert!(rt; conditions(alloc, &p, &calls).is_ok());
    Ok(())
}
