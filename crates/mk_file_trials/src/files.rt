//! Market files with one fault or two, whose answers an independent program computed, and what is printed of them.

use arrayvec::ArrayString;
use mk_file::{FileFault, MarketFile, print_fault, read_market};
use mk_fixtures::{CHAIN, COIN, GATE, WEATHER};
use mk_net::Network;
use mk_sets::VarSet;
use mk_tree::Tree;
use std::alloc::Global;
use std::process::Abort;
use std::test::Fail;

/// Each variable with another number of values and of parents.
const THREE: &str = "points_per_bit = 100
max_trades = 77
cliques = [['a', 'b', 'c'], ['a', 'b'], ['a']]
links = [1, 2]

[[variable]]
name = 'a'
values = ['a1', 'a2']
parents = []
rows = [[400000, 600000]]

[[variable]]
name = 'b'
values = ['b1', 'b2', 'b3']
parents = ['a']
rows = [[10, 20, 999970], [30, 40, 999930]]

[[variable]]
name = 'c'
values = ['c1', 'c2']
parents = ['a', 'b']
rows = [[1, 999999], [2, 999998], [3, 999997], [4, 999996], [5, 999995], [6, 999994]]
";

/// A cup of four: two matches, and the winner, who won one of them.
pub(crate) const CUP: &str = "points_per_bit = 100
max_trades = 1000
cliques = [['s1', 's2', 'w']]
links = []
zeros = true
variable = [
{name = 's1', values = ['a', 'b'], parents = [], rows = [[500000, 500000]]},
{name = 's2', values = ['c', 'd'], parents = [], rows = [[500000, 500000]]},
{name = 'w', values = ['a', 'b', 'c', 'd'], parents = ['s1', 's2'], rows = [
[500000, 0, 500000, 0], [500000, 0, 0, 500000], [0, 500000, 500000, 0], [0, 500000, 0, 500000]]},
]
";

const NAMES: &str = "a b c d e f g h i j k l m";

pub(crate) const NUMBERS: &str = "points_per_bit = 100\nmax_trades = 77\n";

const SIDES: &str = "'\nvalues = ['up', 'down']\nparents = []\nrows = [[500000, 500000]]\n";

/// Edits of each file, and what is printed of it then.
const OF_COIN: &str = r#"100 -> 0x64 => accepted
77 -> 1_000 # trades => accepted
points_per_bit -> "points_per_bit" => accepted
'coin' -> "coin" => accepted
links = [] -> links = []\nfees = [1, 'two'] => accepted
links = [] -> links = []\nzeros = false => accepted
links = [] -> links = []\nzeros = true => accepted
[[variable]]\nname = 'coin'\nvalues = ['heads', 'tails']\nparents = []\nrows = [[500000, 500000]]\n -> variable = [{ name = 'coin', values = ['a', 'b'], parents = [], rows = [[1, 999999]] }] => accepted
100 -> 1000000 => accepted
77 -> 65536 => accepted
77 -> 65537 => accepted
77 -> 1000000 => accepted
77 -> 1 => accepted
'coin' -> 'c234567890_234567890_234567890_2' => accepted
['heads', 'tails']\nparents = []\nrows = [[500000, 500000]] -> ['a', 'b', 'c', 'd']\nparents = []\nrows = [[1, 2, 3, 999994]] => accepted
points_per_bit -> points per bit => refused market toml
100 -> 9223372036854775808 => refused market toml
100 -> 00100 => refused market toml
links = [] -> links = []\nlinks = [] => refused market toml
[[variable]] -> variable = []\n[[variable]] => refused market toml
[[variable]] -> [variable] => refused market type variable 0
[[variable]]\n -> variable = ['coin']\n => refused market type variable 0
[[variable]]\nname = 'coin'\nvalues = ['heads', 'tails']\nparents = []\nrows = [[500000, 500000]]\n -> variable = [] => refused market count variable 0 0
100 -> 100.0 => refused market type points_per_bit 0
100 -> 2026-11-27 => refused market type points_per_bit 0
100 -> true => refused market type points_per_bit 0
100 -> { whole = 100 } => refused market type points_per_bit 0
max_trades = -> max_trades.whole = => refused market type max_trades 0
'heads', 'tails' -> 'heads', 1 => refused market type values 1
[[500000, 500000]] -> [[500000, 500000], 1] => refused market type rows 1
500000]] -> 5e5]] => refused market type rows 1
['coin'] -> [['coin']] => refused market type cliques 0
links = [] -> links = [[]] => refused market type links 0
parents = [] -> parents = '' => refused market type parents 1
points_per_bit -> points => refused market missing points_per_bit 0
max_trades -> trades => refused market missing max_trades 0
[[variable]] -> [[variables]] => refused market missing variable 0
cliques -> clique => refused market missing cliques 0
links -> link => refused market missing links 0
100 -> 0 => refused market count points_per_bit 0 0
100 -> 1000001 => refused market count points_per_bit 0 1000001
100 -> -9223372036854775808 => refused market count points_per_bit 0 -9223372036854775808
100 -> 9223372036854775807 => refused market count points_per_bit 0 9223372036854775807
77 -> 0 => refused market count max_trades 0 0
77 -> 1000001 => refused market count max_trades 0 1000001
[['coin']] -> [] => refused market count cliques 0 0
links = [] -> links = [1] => refused market count links 0 1
[['coin']] -> [['coin'], ['coin']] => refused market count links 0 0
['coin'] -> [] => refused market count cliques 1 0
'heads', 'tails' -> 'heads' => refused market count values 1 1
'heads', 'tails' -> 'a', 'b', 'c', 'd', 'e', 'f', 'g', 'h', 'i', 'j', 'k', 'l', 'm', 'n', 'o', 'p', 'q' => refused market count values 1 17
parents = [] -> parents = ['a', 'b', 'c', 'd', 'e', 'f', 'g', 'h', 'i'] => refused market count parents 1 9
'coin' -> 'c234567890_234567890_234567890_23' => refused market name 1
tails -> täils => refused market name 1
coin ->  => refused market name 1
heads -> _heads => refused market name 1"#;

const OF_THREE: &str = r#"name = 'a' -> nome = 'a' => refused market missing name 1
values = ['b1 -> valves = ['b1 => refused market missing values 2
parents = ['a', 'b'] -> parent = ['a', 'b'] => refused market missing parents 3
rows = [[1, -> row = [[1, => refused market missing rows 3
'a1', 'a2' -> 'a1' => refused market count values 1 1
parents = ['a'] -> parents = ['a', 'b', 'c', 'd', 'e', 'f', 'g', 'h', 'i'] => refused market count parents 2 9
'c1', 'c2' ->  => refused market count values 3 0
name = 'a' -> name = 'A' => refused market name 1
'b3' -> 'b-3' => refused market name 2
'c2' -> '' => refused market name 3
'a2' -> 'a1' => refused market repeat 1
name = 'b' -> name = 'a' => refused market repeat 2
name = 'c' -> name = 'a' => refused market repeat 3
'b3' -> 'b1' => refused market repeat 2
parents = [] -> parents = ['a'] => refused market parent 1
parents = ['a'] -> parents = ['c'] => refused market parent 2
parents = ['a', 'b'] -> parents = ['a', 'a'] => refused market parent 3
600000]] -> 600000], [1, 999999]] => refused market rows 1 2
], [30, 40, 999930] -> ] => refused market rows 2 1
, [6, 999994]] -> ] => refused market rows 3 5
400000, 600000 ->  => refused market width 1 1 0
30, 40, 999930 -> 30, 40, 999929, 1 => refused market width 2 2 4
6, 999994 -> 6 => refused market width 3 6 1
400000, 600000 -> 0, 1000000 => refused market entry 1 1 1
30, 40, 999930 -> 30, 1000001, 40 => refused market entry 2 2 2
6, 999994 -> 6, -1 => refused market entry 3 6 2
400000, 600000 -> 400000, 600001 => refused market sum 1 1 1000001
30, 40, 999930 -> 30, 40, 999929 => refused market sum 2 2 999999
6, 999994 -> 1000000, 1000000 => refused market sum 3 6 2000000
[['a', 'b', 'c'] -> [['a', 'b', 'd'] => refused market clique 1
['a', 'b'], -> ['b', 'b'], => refused market clique 2
['a']] -> ['A']] => refused market clique 3
[['a', 'b', 'c'] -> [['a', 'b', 'c', 'a'] => refused market clique 1
['a']]\n -> ['a', 'a']]\n => refused market clique 3
links = [1, 2] -> links = [0, 2] => refused market link 2
links = [1, 2] -> links = [2, 2] => refused market link 2
links = [1, 2] -> links = [1, 3] => refused market link 3
links = [1, 2] -> links = [1, -1] => refused market link 3
links = [1, 2] -> links = [1, 4294967297] => refused market link 3
cliques = [['a', 'b', 'c'], ['a', 'b'], ['a']] -> cliques = [['b'], ['c'], ['b']] => refused market cover 1
cliques = [['a', 'b', 'c'], ['a', 'b'], ['a']] -> cliques = [['a', 'c'], ['a'], ['b']] => refused market cover 2
cliques = [['a', 'b', 'c'], ['a', 'b'], ['a']] -> cliques = [['a', 'b'], ['c'], ['a', 'c']] => refused market cover 3
cliques = [['a', 'b', 'c'], ['a', 'b'], ['a']] -> cliques = [['a', 'b'], ['c'], ['a']] => refused market cover 3
cliques = [['a', 'b', 'c'], ['a', 'b'], ['a']] -> cliques = [['a', 'b', 'c'], ['b'], ['a']] => refused market running 1
cliques = [['a', 'b', 'c'], ['a', 'b'], ['a']] -> cliques = [['a', 'b', 'c'], ['a'], ['b']] => refused market running 2
cliques = [['a', 'b', 'c'], ['a', 'b'], ['a']] -> cliques = [['a', 'b', 'c'], ['a'], ['c']] => refused market running 3
['a']]\n -> ['a', 'a']]\n; links = [1, 2] -> links = [2, 1] => refused market clique 3
links = [1, 2] -> links = [1, 3]; cliques = [['a', 'b', 'c'], ['a', 'b'], ['a']] -> cliques = [['b'], ['c'], ['b']] => refused market link 3
77 -> true; 100 -> 100 100 => refused market toml
points_per_bit -> points; 77 -> true => refused market missing points_per_bit 0
max_trades -> trades; 100 -> true => refused market type points_per_bit 0
name = 'b' -> name = 2; rows = [[4 -> row = [[4 => refused market missing rows 1
rows = [[4 -> row = [[4; name = 'b' -> name = 2 => refused market missing rows 1
rows = [[1, -> row = [[1,; 100 -> 0 => refused market missing rows 3
'c1', 'c2' -> 'c1', 2; 'a1', 'a2' -> 'a1' => refused market type values 3
77 -> 0; 100 -> 0 => refused market count points_per_bit 0 0
'a1', 'a2' -> 'a1'; links = [1, 2] -> links = [1] => refused market count links 0 1
'a1', 'a2' -> 'a1'; cliques = [['a', 'b', 'c'] -> cliques = [[] => refused market count values 1 1
parents = ['a', 'b'] -> parents = ['a', 'b', 'c', 'd', 'e', 'f', 'g', 'h', 'i']; 'b1', 'b2', 'b3' -> 'b1' => refused market count values 2 1
'c1', 'c2' -> 'c1'; name = 'a' -> name = 'A' => refused market count values 3 1
cliques = [['a', 'b', 'c'] -> cliques = [[]; name = 'a' -> name = 'A' => refused market count cliques 1 0
'c2' -> 'C2'; 'a2' -> 'a1' => refused market name 3
'c2' -> 'c1'; parents = [] -> parents = ['a'] => refused market repeat 3
parents = ['a', 'b'] -> parents = ['a', 'd']; [[400000, 600000]] -> [] => refused market parent 3
, [6, 999994]] -> ]; 400000, 600000 -> 1000000 => refused market rows 3 5
6, 999994 -> 6; 400000, 600000 -> 0, 1000000 => refused market width 3 6 1
6, 999994 -> 6, -1; 400000, 600000 -> 400000, 600001 => refused market entry 3 6 2
6, 999994 -> 6, 6; [['a', 'b', 'c'] -> [['a', 'b', 'd'] => refused market sum 3 6 12"#;

const OF_CHAIN: &str = r#"['b', 'c'] -> ['c', 'b'] => accepted
links = [1, 2] -> links = [1, 1] => refused market running 3"#;

const OF_WEATHER: &str = r#"77 -> 78 => accepted
'rain'], ['season']] -> 'rain'], ['rain']] => accepted"#;

const OF_APART: &str = r#"77 -> 78 => refused market running 1
[['a'], ['b'], ['a']]\nlinks = [1, 2] -> [['a'], ['b']]\nlinks = [1] => accepted
links = [1, 2] -> links = [1, 1] => accepted"#;

const OF_THIRTEEN: &str =
    r#"], ]\nlinks = [] -> ], ['b'], ['a']]\nlinks = [1, 2] => refused market running 1
'm', ], ]\nlinks = [] -> ], ['m']]\nlinks = [1] => accepted"#;

const OF_CUP: &str = r#"points_per_bit -> points_per_bit => accepted
zeros = true -> zeros = false => refused market entry 3 1 2
zeros = true ->  => refused market entry 3 1 2
zeros = true -> zeros = 1 => refused market type zeros 0
zeros = true -> zeros = "true" => refused market type zeros 0
zeros = true -> zeros = [true] => refused market type zeros 0
zeros = true -> zeros = {} => refused market type zeros 0
zeros = true -> zeros = 1; links = [] ->  => refused market missing links 0
zeros = true -> zeros = 1; max_trades = 1000 -> max_trades = 0 => refused market type zeros 0
zeros = true -> zeros = 1; name = 's1', ->  => refused market type zeros 0
zeros = true -> zero = true => refused market entry 3 1 2
zeros = true\n -> ; name = 's1' -> zeros = true, name = 's1' => refused market entry 3 1 2
500000, 0, 0, 500000 -> 500000, 0, 0, 500001 => refused market sum 3 2 1000001"#;

const OF_GATE: &str = r#"points_per_bit -> points_per_bit => accepted
250000, 750000, 0 -> 0, 0, 0 => refused market sum 1 1 0
250000, 750000, 0 -> 0, 1000000, 0 => accepted
250000, 750000, 0 -> -1, 1000001, 0 => refused market entry 1 1 1
250000, 750000, 0 -> 0, 1000001, 0 => refused market entry 1 1 2
250000, 750000, 0 -> 0, 0, 1000001 => refused market entry 1 1 3"#;

/// Edits of the last file: numbers that may be absent, and faults of two of them.
const OF_NUMBERS: &str = r#"1000 -> 1000\nmax_users = 0 => refused market count max_users 0 0
1000 -> 1000\nmax_users = 65537 => refused market count max_users 0 65537
1000 -> 1000\nmax_users = -1 => refused market count max_users 0 -1
1000 -> 1000\nmax_users = "300" => refused market type max_users 0
1000 -> 1000\nmax_transfers = 0 => refused market count max_transfers 0 0
1000 -> 1000\nmax_transfers = 1000001 => refused market count max_transfers 0 1000001
1000 -> 1000\nmax_transfers = 5.0 => refused market type max_transfers 0
max_trades = 1000 -> max_users = 300 => refused market missing max_trades 0
trades = 1000 -> transfers = 0\nmax_users = 0\nmax_trades = 0 => refused market count max_trades 0 0
1000 -> 1000\nmax_transfers = 0\nmax_users = 0 => refused market count max_users 0 0
1000 -> 0\nmax_transfers = [5] => refused market type max_transfers 0
1000 -> 1\nmax_users = 1\nmax_transfers = 1 => accepted
1000 -> 1000\nmax_users = 65536\nmax_transfers = 1000000 => accepted
1000 -> 1000000\nmax_users = 65536\nmax_transfers = 1000000 => accepted"#;

/// A file with some parts replaced, as `old -> new; old -> new`. What ends a line is written `\n`.
fn edited(alloc: Global, base: &str, edits: &str) -> Result<String, Fail> {
    let edits = edits.replace(alloc, "\\n", "\n")?;
    replaced(alloc, base, edits.as_str(), "; ")
}

/// A text with some parts replaced, one after another, as `old -> new`, by edits between which a text stands.
pub(crate) fn replaced(
    alloc: Global,
    base: &str,
    edits: &str,
    between: &str,
) -> Result<String, Fail> {
    let mut text = String::from_str(alloc, base)?;
    for edit in edits.split(between) {
        let (old, new) = edit.split_once(" -> ").ok_or("no arrow")?;
        text = text.replace(alloc, old, new)?;
    }
    Ok(text)
}

/// A file where a variable stands in two cliques that are linked through one without it.
fn apart(alloc: Global) -> Result<String, Fail> {
    let mut text = String::from_str(alloc, NUMBERS)?;
    text.push_str("cliques = [['a'], ['b'], ['a']]\nlinks = [1, 2]\n")?;
    put_each(&mut text, "[[variable]]\nname = '", 2, SIDES)?;
    Ok(text)
}

/// A file of as many coins and cliques, each clique with all the coins and linked to the first.
fn coins(alloc: Global, variables: usize, cliques: usize) -> Result<String, Fail> {
    let mut text = String::from_str(alloc, NUMBERS)?;
    put_coins(&mut text, variables, cliques)?;
    Ok(text)
}

fn put_coins(text: &mut String, variables: usize, cliques: usize) -> Result<(), Fail> {
    text.push_str("cliques = [")?;
    for _ in 0..cliques {
        text.push_str("[")?;
        put_each(text, "'", variables, "', ")?;
        text.push_str("], ")?;
    }
    text.push_str("]\nlinks = [")?;
    for _ in 1..cliques {
        text.push_str("1, ")?;
    }
    text.push_str("]\n")?;
    put_each(text, "[[variable]]\nname = '", variables, SIDES)
}

/// Writes the name of each coin between two texts.
fn put_each(text: &mut String, before: &str, variables: usize, after: &str) -> Result<(), Fail> {
    for name in NAMES.split(" ").take(variables) {
        text.push_str(before)?;
        text.push_str(name)?;
        text.push_str(after)?;
    }
    Ok(())
}

/// Writes what is printed of a file.
fn print(alloc: Global, bytes: &[u8], line: &mut ArrayString<32768>) {
    line.clear();
    match read_market(alloc, bytes) {
        Ok(_) => line.push_str("accepted"),
        Err(FileFault::Memory) => line.push_str("no memory"),
        Err(fault) => print_fault(&fault, line),
    }
}

/// Stops unless this is printed of a file.
pub(crate) fn expect(rt: &impl Abort, alloc: Global, bytes: &[u8], printed: &str, edits: &str) {
    let mut line = ArrayString::new();
    print(alloc, bytes, &mut line);
    assert_eq!(rt; line.as_str(), printed, "at {edits}");
}

/// Stops unless a line of edits gives a file its answer.
fn expect_case(rt: &impl Abort, alloc: Global, base: &str, case: &str) -> Result<(), Fail> {
    let (edits, printed) = case.split_once(" => ").ok_or("no answer")?;
    let text = edited(alloc, base, edits)?;
    expect(rt, alloc, text.as_bytes(), printed, edits);
    Ok(())
}

/// Stops unless each line of edits gives a file its answer.
fn expect_each(rt: &impl Abort, alloc: Global, base: &str, cases: &str) -> Result<(), Fail> {
    for case in cases.split("\n") {
        expect_case(rt, alloc, base, case)?;
    }
    Ok(())
}

#[test]
fn edited_files(rt: HostRuntime) -> Result<(), Fail> {
    for (base, cases) in [
        (COIN, OF_COIN),
        (THREE, OF_THREE),
        (CHAIN, OF_CHAIN),
        (WEATHER, OF_WEATHER),
        (CUP, OF_CUP),
        (GATE, OF_GATE),
        (GATE, OF_NUMBERS),
    ] {
        expect_each(&rt, rt.alloc(), base, cases)?;
    }
    expect_each(&rt, rt.alloc(), apart(rt.alloc())?.as_str(), OF_APART)
}

#[test]
fn counts_of_cliques_and_cells(rt: HostRuntime) -> Result<(), Fail> {
    let alloc = rt.alloc();
    for (variables, cliques, printed) in [
        (1, 256, "accepted"),
        (1, 257, "refused market count cliques 0 257"),
        (4, 256, "accepted"),
        (5, 1, "accepted"),
        (12, 8, "accepted"),
        (12, 9, "refused market cells 9"),
        (13, 1, "refused market cells 1"),
    ] {
        let text = coins(alloc, variables, cliques)?;
        expect(&rt, alloc, text.as_bytes(), printed, "coins");
    }
    let large = coins(alloc, 13, 1)?;
    expect_each(&rt, alloc, large.as_str(), OF_THIRTEEN)
}

#[test]
fn what_is_no_document(rt: HostRuntime) -> Result<(), Fail> {
    let alloc = rt.alloc();
    let long = vec![in alloc; b'='; 1_048_577]?;
    let blank = vec![in alloc; b' '; 1_048_576]?;
    for (bytes, printed) in [
        (b"points_per_bit = ".as_slice(), "refused market toml"),
        (b"a = \"\xff\"\n".as_slice(), "refused market toml"),
        (long.as_slice(), "refused market long"),
        (blank.as_slice(), "refused market missing points_per_bit 0"),
    ] {
        expect(&rt, alloc, bytes, printed, "no document");
    }
    Ok(())
}

fn expect_chain(rt: &impl Abort, file: &MarketFile) {
    assert!(rt; (file.points_per_bit, file.max_trades) == (100, 77));
    assert!(rt; (file.max_users, file.max_transfers) == (256, 65_536));
    expect_names(rt, &file.net);
    expect_cliques(rt, &file.tree);
}

fn expect_names(rt: &impl Abort, net: &Network) {
    assert!(rt; net.variables() == 3);
    assert!(rt; net.name(0).bytes() == b"a".as_slice());
    assert!(rt; net.values(0) == 2);
    assert!(rt; net.value_name(0, 1).bytes() == b"down".as_slice());
    assert!(rt; net.parents(2) == [1].as_slice());
}

fn expect_cliques(rt: &impl Abort, tree: &Tree) {
    assert!(rt; tree.cliques() == 3);
    assert!(rt; tree.link(1).is_none());
    assert!(rt; tree.link(3) == Some(2));
    assert!(rt; tree.clique(1) == VarSet::empty().with(0).with(1));
    assert!(rt; tree.clique(2) == VarSet::empty().with(1).with(2));
    assert!(rt; tree.clique(3) == VarSet::empty().with(2));
}

#[test]
fn reads_a_chain(rt: HostRuntime) -> Result<(), Fail> {
    let file = read_market(rt.alloc(), CHAIN.as_bytes())?;
    expect_chain(&rt, &file);
    Ok(())
}
