//! Trials on one chain, whose file is read once: its tree and its flows.

ghost use Rattle.mk_tree.specs.Checked.{IsTreeOf};

use crate::flows::check_flows;
use crate::trees::check_copy;
use mk_file::{MarketFile, read_market};
use mk_fixtures::CHAIN;
use std::alloc::Global;
use std::process::Abort;
use std::test::Fail;

fn check_all(rt: &impl Abort, alloc: Global, file: &MarketFile) -> Result<(), Fail>
    requires { IsTreeOf file.now.net file.now.tree }
{
    check_copy(rt, alloc, &file.tree)?;
    check_flows(rt, alloc, file)
}

#[test]
fn on_the_chain(rt: HostRuntime) -> Result<(), Fail> {
    let file = read_market(rt.alloc(), CHAIN.as_bytes())?;
    check_all(&rt, rt.alloc(), &file)
}
