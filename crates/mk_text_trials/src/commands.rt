//! Texts of commands, each both ways, and of none.

ghost use Rattle.std.specs.Prelude.{◌≡◌, true, All, IfSome};
ghost use Rattle.mk_text.specs.Numbers.{IsShort};
ghost use Rattle.mk_command.specs.Commands.{HasShortNumbers};

use crate::texts::{expect_none, expect_text, name};
use arrayvec::{ArrayString, ArrayVec};
use mk_addition::{AddText, text_length};
use mk_command::{Command, CommandRef, Words, print_command, read_command};
use mk_names::Name;
use mk_net::{PairText, QuestionText, Row};
use std::process::Abort;

const LONGEST_NAME: &[u8] = b"abcdefghijklmnopqrstuvwxyz_01234";

fn pair(rt: &impl Abort, variable: &[u8], value: &[u8]) -> PairText {
    PairText {
        variable: name(rt, variable),
        value: name(rt, value),
    }
}

fn question(target: &PairText, pairs: &[PairText]) -> QuestionText {
    QuestionText {
        target: *target,
        condition: condition(pairs),
    }
}

fn condition(pairs: &[PairText]) -> ArrayVec<PairText, 8> {
    let mut condition = ArrayVec::new();
    for pair in pairs {
        let _ = condition.try_push(*pair);
    }
    condition
}

fn both_ways(rt: &impl Abort, text: &str, command: Command) {
    let mut words = Words::default();
    assert_eq!(rt;
        read_command(text.as_bytes(), &mut words),
        Ok(command.lend()),
        "{text}"
    );
    prints(rt, text, &command);
}

fn prints(rt: &impl Abort, text: &str, command: &Command) {
    assert!(rt; has_short_numbers(command), "{text}");
    let mut printed = ArrayString::new();
    print_command(command, &mut printed);
    expect_text(rt, printed.as_str(), text);
}

/// Whether each number of a command has at most nine digits, and a distribution at least two shares.
fn has_short_numbers(command: &Command) -> bool
    ensures { result ≡ true → HasShortNumbers command.now }
{
    match command {
        Command::Deposit { bits, .. } | Command::Withdraw { bits, .. } => is_short(*bits),
        Command::Edit { to, at, .. } => is_short(*to) && is_short_or_none(*at),
        Command::Spread { to, at, .. } => {
            to.len() >= 2 && are_short(to.as_slice()) && is_short_or_none(*at)
        }
        Command::Add { addition } => text_length(addition) <= 1024,
        _ => true,
    }
}

fn is_short(number: u32) -> bool
    ensures { result ≡ true → IsShort number }
{
    number < 1_000_000_000
}

fn is_short_or_none(number: Option<u32>) -> bool
    ensures { result ≡ true → IfSome number IsShort }
{
    match number {
        Some(number) => is_short(number),
        None => true,
    }
}

fn are_short(numbers: &[u32]) -> bool
    ensures { result ≡ true → All IsShort numbers.now }
{
    for number in numbers {
        if !is_short(*number) {
            return false;
        }
    }
    true
}

#[test]
fn reads_and_prints_each_form(rt: HostRuntime) {
    let user = name(&rt, b"alice");
    let odd_user = name(&rt, b"user");
    let coin = pair(&rt, b"coin", b"heads");
    both_ways(&rt, "user alice", Command::User { user });
    both_ways(&rt, "user user", Command::User { user: odd_user });
    both_ways(&rt, "deposit alice 0", Command::Deposit { user, bits: 0 });
    let bits = 999_999_999;
    both_ways(
        &rt,
        "deposit alice 999999999",
        Command::Deposit { user, bits },
    );
    both_ways(
        &rt,
        "withdraw alice 1000",
        Command::Withdraw { user, bits: 1000 },
    );
    both_ways(&rt, "worst alice", Command::Worst { user });
    both_ways(&rt, "resolve coin=heads", Command::Resolve { pair: coin });
    both_ways(&rt, "settle", Command::Settle);
    both_ways(&rt, "bound", Command::Bound);
    let bound = name(&rt, b"bound");
    both_ways(&rt, "worst bound", Command::Worst { user: bound });
    let pair = pair(&rt, b"bound", b"bound");
    both_ways(&rt, "resolve bound=bound", Command::Resolve { pair });
}

#[test]
fn reads_and_prints_what_is_paid(rt: HostRuntime) {
    let user = name(&rt, b"alice");
    both_ways(&rt, "paid alice", Command::Paid { user });
    let user = name(&rt, b"paid");
    both_ways(&rt, "paid paid", Command::Paid { user });
    both_ways(&rt, "worst paid", Command::Worst { user });
    prices(&rt, "prices paid", b"paid", &[]);
    let pair = pair(&rt, b"paid", b"paid");
    both_ways(&rt, "resolve paid=paid", Command::Resolve { pair });
    let user = name(&rt, LONGEST_NAME);
    let text = "paid abcdefghijklmnopqrstuvwxyz_01234";
    both_ways(&rt, text, Command::Paid { user });
}

/// Stops unless an edit by alice is printed as this text, and read from it.
fn edit(
    rt: &impl Abort,
    text: &str,
    target: &PairText,
    pairs: &[PairText],
    to: u32,
    at: Option<u32>,
) {
    let command = Command::Edit {
        user: name(rt, b"alice"),
        question: question(target, pairs),
        to,
        at,
    };
    both_ways(rt, text, command);
}

#[test]
fn reads_and_prints_questions(rt: HostRuntime) {
    let user = name(&rt, b"alice");
    let coin = pair(&rt, b"coin", b"heads");
    let rain = pair(&rt, b"rain", b"yes");
    let odd = pair(&rt, b"to", b"at");
    let plain = question(&coin, &[]);
    let command = Command::Price { question: plain };
    both_ways(&rt, "price coin=heads", command);
    let pairs = [rain, odd];
    let conditioned = question(&coin, &pairs);
    let command = Command::Price {
        question: conditioned,
    };
    both_ways(&rt, "price coin=heads | rain=yes, to=at", command);
    let pairs = [coin];
    let limited = question(&rain, &pairs);
    let command = Command::Limits {
        user,
        question: limited,
    };
    both_ways(&rt, "limits alice rain=yes | coin=heads", command);
    let text = "edit alice coin=heads to 500000";
    edit(&rt, text, &coin, &[], 500_000, None);
    let text = "edit alice rain=yes | coin=heads to 0 at 0";
    edit(&rt, text, &rain, &pairs, 0, Some(0));
}

fn numbers(list: &[u32]) -> ArrayVec<u32, 16> {
    let mut numbers = ArrayVec::new();
    for number in list {
        let _ = numbers.try_push(*number);
    }
    numbers
}

#[test]
fn reads_and_prints_bounds(rt: HostRuntime) {
    let user = name(&rt, b"alice");
    let variable = name(&rt, b"die");
    let command = Command::Bounds {
        user,
        variable,
        condition: condition(&[]),
    };
    both_ways(&rt, "bounds alice die", command);
    let pairs = [pair(&rt, b"rain", b"yes"), pair(&rt, b"to", b"at")];
    let command = Command::Bounds {
        user,
        variable,
        condition: condition(&pairs),
    };
    both_ways(&rt, "bounds alice die | rain=yes, to=at", command);
}

/// Stops unless a spread of alice over the values of a die is printed as this text, and read from it.
fn spread(rt: &impl Abort, text: &str, pairs: &[PairText], to: &[u32], at: Option<u32>) {
    let command = Command::Spread {
        user: name(rt, b"alice"),
        variable: name(rt, b"die"),
        condition: condition(pairs),
        to: numbers(to),
        at,
    };
    both_ways(rt, text, command);
}

#[test]
fn reads_and_prints_spreads(rt: HostRuntime) {
    let text = "spread alice die to 200000 300000 500000";
    spread(&rt, text, &[], &[200_000, 300_000, 500_000], None);
    let pairs = [pair(&rt, b"rain", b"yes"), pair(&rt, b"to", b"at")];
    let text = "spread alice die | rain=yes, to=at to 0 999999999 at 7";
    spread(&rt, text, &pairs, &[0, 999_999_999], Some(7));
    let text = "spread alice die to 1 1 1 1 1 1 1 1 1 1 1 1 1 1 1 1 at 0";
    spread(&rt, text, &[], &[1u32; 16], Some(0));
}

/// Stops unless a question for the prices of a variable is printed as this text, and read from it.
fn prices(rt: &impl Abort, text: &str, variable: &[u8], pairs: &[PairText]) {
    let command = Command::Prices {
        variable: name(rt, variable),
        condition: condition(pairs),
    };
    both_ways(rt, text, command);
}

fn position(rt: &impl Abort, text: &str, user: &[u8], variable: &[u8], pairs: &[PairText]) {
    let command = Command::Position {
        user: name(rt, user),
        variable: name(rt, variable),
        condition: condition(pairs),
    };
    both_ways(rt, text, command);
}

#[test]
fn reads_and_prints_what_asks_of_each_value(rt: HostRuntime) {
    prices(&rt, "prices coin", b"coin", &[]);
    prices(&rt, "prices prices", b"prices", &[]);
    let pairs = [pair(&rt, b"season", b"wet")];
    prices(&rt, "prices rain | season=wet", b"rain", &pairs);
    let text = "position position status | season=wet";
    position(&rt, text, b"position", b"status", &pairs);
    let text = "prices rain | position=status, to=at";
    let pairs = [pair(&rt, b"position", b"status"), pair(&rt, b"to", b"at")];
    prices(&rt, text, b"rain", &pairs);
    position(&rt, "position alice coin", b"alice", b"coin", &[]);
    both_ways(&rt, "status", Command::Status);
    let user = name(&rt, b"status");
    both_ways(&rt, "worst status", Command::Worst { user });
}

/// A row of two shares.
fn row(rt: &impl Abort, first: u32, second: u32) -> Row {
    match Row::empty().with(first).and_then(|row| row.with(second)) {
        Some(row) => row,
        None => panic!(rt; "no row"),
    }
}

/// A question of two values, linked to a clique, without rows and without a clique of its own.
fn addition(rt: &impl Abort, variable: &[u8], values: [&[u8]; 2], link: u32) -> AddText {
    let mut addition = AddText {
        variable: name(rt, variable),
        link,
        ..AddText::default()
    };
    for value in values {
        let _ = addition.values.try_push(name(rt, value));
    }
    addition
}

#[test]
fn reads_and_prints_added_questions(rt: HostRuntime) {
    let mut addition = addition(&rt, b"add", [b"yes", b"no"], 1);
    let _ = addition.rows.try_push(row(&rt, 1, 999_999));
    let _ = addition.clique.try_push(name(&rt, b"add"));
    let text = "add add=yes,no : 1 999999 in add to 1";
    both_ways(&rt, text, Command::Add { addition });
}

#[test]
fn reads_and_prints_added_questions_with_parents(rt: HostRuntime) {
    let words: [&[u8]; 2] = [b"to", b"in"];
    let mut addition = addition(&rt, b"in", words, 999_999_999);
    for word in words {
        let _ = addition.clique.try_push(name(&rt, word));
        let _ = addition.rows.try_push(row(&rt, 999_999_999, 0));
    }
    let _ = addition.parents.try_push(name(&rt, b"to"));
    let text = "add in=to,in | to : 999999999 0, 999999999 0 in to,in to 999999999";
    both_ways(&rt, text, Command::Add { addition });
}

/// Stops unless a command is printed as a text of this length, and read from it.
fn expect_length(rt: &impl Abort, length: usize, command: Command) {
    assert!(rt; has_short_numbers(&command));
    let mut text = ArrayString::new();
    print_command(&command, &mut text);
    assert_eq!(rt; text.len(), length);
    both_ways(rt, text.as_str(), command);
}

#[test]
fn reads_and_prints_the_longest(rt: HostRuntime) {
    let user = name(&rt, LONGEST_NAME);
    let pair = pair(&rt, LONGEST_NAME, LONGEST_NAME);
    let pairs = [pair; 8];
    let position = Command::Position {
        user,
        variable: user,
        condition: condition(&pairs),
    };
    expect_length(&rt, 611, position);
    let edit = Command::Edit {
        user,
        question: question(&pair, &pairs),
        to: 999_999_999,
        at: Some(999_999_999),
    };
    expect_length(&rt, 666, edit);
}

/// Texts that are no commands, each a line: the first is empty, and some end in a space.
const NO_COMMANDS: &str = "
 
settle 
 settle
settled
Settle
user
user 
user  alice
user Alice
user 1a
user alice\r
user alice bob
user abcdefghijklmnopqrstuvwxyz_012345
deposit alice
deposit alice 01
deposit alice 1000000000
deposit alice 18446744073709551617
deposit alice -1
deposit alice +1
deposit alice  1
deposit alice 1 
price coin
price coin=
price =heads
price coin=a=b
price coin=up|rain=yes
price coin=up |rain=yes
price coin=up | 
price coin=up | rain
price coin=up | rain=yes,sun=no
price coin=up | rain=yes, 
price a=b | c=d, c=d, c=d, c=d, c=d, c=d, c=d, c=d, c=d
limits coin=heads
limits alice
edit alice coin=heads
edit alice coin=heads to
edit alice coin=heads to 1a
edit alice coin=heads at 1 to 2
edit alice coin=heads to 1 at
edit alice coin=heads to 1 at 01
edit alice coin=heads to 1 at 2 at 3
bounds alice
bounds alice die=one
bounds alice die at 1
spread alice die
spread alice die to
spread alice die to 1
spread alice die to 1 at 2
spread alice die to 1  2
spread alice die to 1 02
spread alice die to 1 2 
spread alice die to 1 2 at
spread alice die to 1 2 at 3 4
spread alice die to 1 1000000000
spread alice die to 1 1 1 1 1 1 1 1 1 1 1 1 1 1 1 1 1
spread alice die=one to 1 2
bound alice
bound 
Bound
bound at 0
bounds
bound 0..0
prices
prices 
prices coin=heads
prices coin |coin=heads
prices coin to 5
prices coin | c=d, c=d, c=d, c=d, c=d, c=d, c=d, c=d, c=d
prices 0.5000000000..0.5000000000 0.5000000000..0.5000000000
position coin
position alice coin=heads
position alice coin at 1
position alice  coin
position 0..0 0..0
position none 100..100
status at 0
status now
Status
add
add x
add x=a,b
add x=a : 1000000 in x to 1
add x=a,b : 1 999999
add x=a,b : 1 999999 in x
add x=a,b : 1 999999 in x to
add x=a,b : 1 999999 in x to 1000000000
add x=a,b : 1 999999 in x to 01
add x=a,b : 1  999999 in x to 1
add x=a,b : 1 999999 in  x to 1
add x=a,b : 1 1000000000 in x to 1
add x=a,b :1 999999 in x to 1
add x=a,b | : 1 999999 in x to 1
add x=a,b |p : 1 999999 in x,p to 1
add x=a, b : 1 999999 in x to 1
add x=a,b : 1 999999,1 999999 in x to 1
add x=a,b : 1 999999 in x to 1 at 2
add x=a,b | p,p,p,p,p,p,p,p,p : 1 999999 in x to 1
add x=a,b : 1 2 3 4 5 6 7 8 9 1 2 3 4 5 6 7 8 in x to 1
add x=a,b : 1 999999 in a,b,c,d,e,f,g,h,i,j,k,l,m,n to 1
add X=a,b : 1 999999 in X to 1
status at 1 users 1 trades 0 of 1000 transfers 0 of 65536 open 1 of 1
worst
paid
paid 
paid coin=heads
paid alice bob
paid alice at 5
paid  alice
paid alice 
paid Alice
Paid alice
paid abcdefghijklmnopqrstuvwxyz_012345
paid alice 5..6 paid 5
resolve coin
resolve coin=heads | rain=yes";

#[test]
fn reads_nothing_else(rt: HostRuntime) {
    for text in NO_COMMANDS.split("\n") {
        let mut words = Words::default();
        let read = read_command(text.as_bytes(), &mut words);
        expect_none(&rt, read.is_err(), text);
    }
}

/// Stops unless a text is read as a question for its price, into words that hold another.
fn reads_over(rt: &impl Abort, words: &mut Words, text: &str, asked: &QuestionText) {
    let price = CommandRef::Price { question: asked };
    assert!(rt; read_command(text.as_bytes(), words) == Ok(price), "{text}");
}

#[test]
fn a_line_is_written_over_the_words_of_another(rt: HostRuntime) {
    let coin = pair(&rt, b"coin", b"heads");
    let rain = pair(&rt, b"rain", b"yes");
    let under_rain = question(&coin, &[rain]);
    let alone = question(&coin, &[]);
    let mut words = Words::default();
    reads_over(&rt, &mut words, "price coin=heads | rain=yes", &under_rain);
    reads_over(&rt, &mut words, "price coin=heads", &alone);
    reads_over(&rt, &mut words, "price coin=heads | rain=yes", &under_rain);
}
