//! Drafts of networks as market files, and the first faults of those that are refused.

use crate::files::{NUMBERS, expect, replaced};
use std::alloc::Global;
use std::process::Abort;
use std::test::Fail;

/// What stands for the names in drafts, each put in after those above it. No name is a part of another.
const VARIABLES: &str =
    "SEASON -> { name = 'season', values = ['wet', 'dry'], parents = [], rows = [[400000, 600000]] }
RAIN -> { name = 'rain', values = ['yes', 'no'], parents = ['season'], rows = [[700000, 300000], [100000, 900000]] }
LAWN -> { name = 'lawn', values = ['green', 'brown', 'gone'], parents = ['season', 'rain'], rows = FOUR_ROWS }
ONE_VALUE -> { name = 'rain', values = ['yes'], parents = ['season'], rows = [[700000, 300000], [100000, 900000]] }
SEVENTEEN -> { name = 'lawn', values = ['a', 'b', 'c', 'd', 'e', 'f', 'g', 'h', 'i', 'j', 'k', 'l', 'm', 'n', 'o', 'p', 'q'], parents = ['season', 'rain'], rows = FOUR_ROWS }
NINE_PARENTS -> { name = 'lawn', values = ['green', 'brown', 'gone'], parents = ['a', 'b', 'c', 'd', 'e', 'f', 'g', 'h', 'i'], rows = FOUR_ROWS }
NO_NAME -> { name = 'Rain', values = ['yes', 'no'], parents = ['season'], rows = [[700000, 300000], [100000, 900000]] }
NO_VALUE -> { name = 'rain', values = ['yes', 'not so'], parents = ['season'], rows = [[700000, 300000], [100000, 900000]] }
SAME_VALUES -> { name = 'lawn', values = ['green', 'gone', 'gone'], parents = ['season', 'rain'], rows = FOUR_ROWS }
LATER_PARENT -> { name = 'season', values = ['wet', 'dry'], parents = ['rain'], rows = [[400000, 600000]] }
SAME_PARENTS -> { name = 'lawn', values = ['green', 'brown', 'gone'], parents = ['rain', 'rain'], rows = FOUR_ROWS }
TWO_ROWS -> { name = 'season', values = ['wet', 'dry'], parents = [], rows = [[400000, 600000], [1000000]] }
ONE_ENTRY -> { name = 'season', values = ['wet', 'dry'], parents = [], rows = [[1000001]] }
NO_ROWS -> { name = 'rain', values = ['yes', 'no'], parents = ['season'], rows = [] }
THREE_ENTRIES -> { name = 'rain', values = ['yes', 'no'], parents = ['season'], rows = [[0, 1000000], [1, 1, 999998]] }
SHORT_VALUES -> { name = 'lawn', values = ['green', 'brown'], parents = ['season', 'rain'], rows = FOUR_ROWS }
ZERO -> { name = 'rain', values = ['yes', 'no'], parents = ['season'], rows = [[500000, 499999], [1000000, 0]] }
TOO_MUCH -> { name = 'season', values = ['wet', 'dry'], parents = [], rows = [[1000001, -1]] }
TOO_LITTLE -> { name = 'rain', values = ['yes', 'no'], parents = ['season'], rows = [[700000, 300000], [100000, 899999]] }
LAST_ENTRY -> { name = 'lawn', values = ['green', 'brown', 'gone'], parents = ['season', 'rain'], rows = [[600000, 300000, 100000], [500000, 400000, 100000], [400000, 300000, 300000], [200000, 300000, 1000001]] }
LAST_SUM -> { name = 'lawn', values = ['green', 'brown', 'gone'], parents = ['season', 'rain'], rows = [[600000, 300000, 100000], [500000, 400000, 100000], [400000, 300000, 300000], [1000000, 1000000, 1000000]] }
FOUR_ROWS -> [[600000, 300000, 100000], [500000, 400000, 100000], [400000, 300000, 300000], [200000, 300000, 500000]]";

/// Drafts with their first faults. Where a draft has faults of two kinds, that of the later kind stands first.
const REFUSED: &str = " => refused market count variable 0 0
ONE_VALUE, SEASON => refused market count values 1 1
SEASON, RAIN, SEVENTEEN => refused market count values 3 17
SEASON, NINE_PARENTS, RAIN => refused market count parents 2 9
NO_NAME, SEASON, ONE_VALUE => refused market count values 3 1
NO_NAME, RAIN, LAWN => refused market name 1
SEASON, SEASON, NO_VALUE => refused market name 3
SEASON, RAIN, SEASON => refused market repeat 3
LATER_PARENT, RAIN, SAME_VALUES => refused market repeat 3
RAIN, SEASON => refused market parent 1
TWO_ROWS, LAWN, RAIN => refused market parent 2
SEASON, RAIN, SAME_PARENTS => refused market parent 3
TWO_ROWS, RAIN, LAWN => refused market rows 1 2
ONE_ENTRY, NO_ROWS => refused market rows 2 0
ONE_ENTRY, THREE_ENTRIES => refused market width 1 1 1
TOO_MUCH, THREE_ENTRIES => refused market width 2 2 3
SEASON, RAIN, SHORT_VALUES => refused market width 3 1 3
TOO_MUCH, TOO_LITTLE => refused market entry 1 1 1
SEASON, ZERO => refused market entry 2 2 2
SEASON, TOO_LITTLE, LAST_ENTRY => refused market entry 3 4 3
SEASON, TOO_LITTLE, LAST_SUM => refused market sum 2 2 999999
SEASON, RAIN, LAST_SUM => refused market sum 3 4 3000000";

const CLIQUES: &str = "cliques = [['season', 'rain', 'lawn']]\nlinks = []\n";

/// The market file of a draft of variables that are given by their names here.
fn drafted(alloc: Global, names: &str) -> Result<String, Fail> {
    let text = format!(in alloc; "{NUMBERS}{CLIQUES}variable = [{names}]\n")?;
    replaced(alloc, text.as_str(), VARIABLES, "\n")
}

/// Stops unless a draft has its answer.
fn expect_draft(rt: &impl Abort, alloc: Global, case: &str) -> Result<(), Fail> {
    let (names, printed) = case.split_once(" => ").ok_or("no answer")?;
    let text = drafted(alloc, names)?;
    expect(rt, alloc, text.as_bytes(), printed, names);
    Ok(())
}

#[test]
fn takes_three_variables(rt: HostRuntime) -> Result<(), Fail> {
    expect_draft(&rt, rt.alloc(), "SEASON, RAIN, LAWN => accepted")
}

#[test]
fn refuses_others(rt: HostRuntime) -> Result<(), Fail> {
    for case in REFUSED.split("\n") {
        expect_draft(&rt, rt.alloc(), case)?;
    }
    Ok(())
}
