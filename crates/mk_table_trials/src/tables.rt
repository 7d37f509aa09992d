//! Rain, wind and heat, the second with the first as its parent: each call of a table in each semiring, by numbers worked out by
//! hand.

ghost use Rattle.std.specs.Prelude.{◌≡◌, ◌+◌, ◌<◌, ◌≤◌, false, List, [], ◌∷◌, length, slice_index, IfOk};
ghost use Rattle.mk_net.specs.Events.{speaks_of};
ghost use Rattle.mk_net.specs.Network.{sizes};
ghost use Rattle.mk_net.specs.Trades.{trade_ratio};
ghost use Rattle.mk_scope.specs.Scopes.{LiesIn};
ghost use Rattle.mk_table.specs.Tables.{HasRoom};
ghost use Rattle.mk_table.specs.Lists.{table_in};
ghost use Rattle.mk_table_trials.specs.Weather.{of_all, of_rain, of_wind, weather_scopes};
ghost use Rattle.mk_table_trials.specs.Weather.{AreWeather, HaveRoom};

use arrayvec::ArrayVec;
use mk_cell::Cell;
use mk_file::read_market;
use mk_fixtures::{A, NOT_A, NOT_B, NOT_C};
use mk_net::{Event, Network, NoMemory, Pair, Ratio};
use mk_scope::{CellList, Places, Scope};
use mk_semiring::{MinProd, Semiring, SumProd};
use mk_sets::VarSet;
use mk_table::{Scopes, Tables};
use std::alloc::Global;
use std::process::Abort;
use std::rc::Rc;
use std::test::Fail;

const DRY: Pair = A;

const RAIN: Pair = NOT_A;

const MIDDLE: Pair = NOT_B;

const HIGH: Pair = Pair {
    variable: 1,
    value: 2,
};

const WARM: Pair = NOT_C;

const WEATHER: &str = "points_per_bit = 1
max_trades = 1
cliques = [['rain', 'wind'], ['heat']]
links = [1]
variable = [
{name = 'rain', values = ['no', 'yes'], parents = [], rows = [[400000, 600000]]},
{name = 'wind', values = ['low', 'mid', 'high'], parents = ['rain'], rows = [
[100000, 200000, 700000], [300000, 300000, 400000]]},
{name = 'heat', values = ['cold', 'warm'], parents = [], rows = [[500000, 500000]]},
]
";

/// The number of the table of all three variables.
const OF_ALL: usize = 0;

/// The number of the rain's table.
const OF_RAIN: usize = 1;

/// The number of the wind's table.
const OF_WIND: usize = 2;

/// The network, the scopes of its tables, and where the cells of rain and of wind lie in those
/// of all.
#[derive(Drop)]
struct Weather {
    net: Network,
    scopes: Rc<Scopes>,
    rain: Places,
    wind: Places,
    ghost three: { length net ≡ 3 },
    ghost rains: { slice_index (sizes net) 0 ≡ 2 },
    ghost winds: { slice_index (sizes net) 1 ≡ 3 },
    ghost scopes_are: { scopes.value ≡ weather_scopes },
    ghost rain_is: { rain ≡ record { whole = of_all; part = of_rain } },
    ghost wind_is: { wind ≡ record { whole = of_all; part = of_wind } },
}

/// The event of one pair.
fn only(rt: &impl Abort, pair: Pair) -> Event
    ensures { result ≡ pair ∷ [] }
{
    Event::empty().with(pair).expect(rt, "a pair")
}

/// The scope of all three.
fn all(alloc: Global, net: &Network) -> Result<Rc<Scope>, NoMemory>
    requires three { length net.now ≡ 3 }
    requires rains { slice_index (sizes net.now) 0 ≡ 2 }
    requires winds { slice_index (sizes net.now) 1 ≡ 3 }
    requires heats { slice_index (sizes net.now) 2 ≡ 2 }
    ensures { IfOk result (λ scope. scope.value ≡ of_all) }
{
    let scope = Scope::of(alloc, net, &VarSet::empty().with(0).with(1).with(2))?;
    Ok(Rc::new(alloc, scope)?)
}

/// Where the cells of a part lie.
fn places(alloc: Global, whole: &Rc<Scope>, part: &Rc<Scope>) -> Result<Places, NoMemory>
    requires { LiesIn part.now.value whole.now.value }
    ensures { IfOk result (λ it. it ≡ record { whole = whole.now.value; part = part.now.value }) }
{
    let (mut bases, mut offsets) = (CellList::new(alloc)?, CellList::new(alloc)?);
    Places::of(alloc, whole, part, &mut bases, &mut offsets)
}

fn rain(alloc: Global, net: &Network) -> Result<Rc<Scope>, NoMemory>
    requires three { length net.now ≡ 3 }
    requires rains { slice_index (sizes net.now) 0 ≡ 2 }
    ensures { IfOk result (λ scope. scope.value ≡ of_rain) }
{
    let scope = Scope::of(alloc, net, &VarSet::empty().with(0))?;
    Ok(Rc::new(alloc, scope)?)
}

fn wind(alloc: Global, net: &Network) -> Result<Rc<Scope>, NoMemory>
    requires three { length net.now ≡ 3 }
    requires winds { slice_index (sizes net.now) 1 ≡ 3 }
    ensures { IfOk result (λ scope. scope.value ≡ of_wind) }
{
    let scope = Scope::of(alloc, net, &VarSet::empty().with(1))?;
    Ok(Rc::new(alloc, scope)?)
}

/// Stops unless the network has three variables of two, three and two values.
fn expect_sizes(rt: &impl Abort, net: &Network)
    ensures three { length net.now ≡ 3 }
    ensures rains { slice_index (sizes net.now) 0 ≡ 2 }
    ensures winds { slice_index (sizes net.now) 1 ≡ 3 }
    ensures heats { slice_index (sizes net.now) 2 ≡ 2 }
{
    assert!(rt; net.variables() == 3);
    assert!(rt; net.values(0) == 2);
    assert!(rt; net.values(1) == 3);
    assert!(rt; net.values(2) == 2);
}

fn with_scopes(alloc: Global, net: Network, all: Rc<Scope>) -> Result<Weather, NoMemory>
    requires three { length net ≡ 3 }
    requires rains { slice_index (sizes net) 0 ≡ 2 }
    requires winds { slice_index (sizes net) 1 ≡ 3 }
    requires all { all.value ≡ of_all }
{
    let (rain, wind) = (rain(alloc, &net)?, wind(alloc, &net)?);
    let rain_places = places(alloc, &all, &rain)?;
    let wind_places = places(alloc, &all, &wind)?;
    let scopes = Scopes::of(vec![in alloc; all, rain, wind]?);
    Ok(Weather {
        net,
        scopes: Rc::new(alloc, scopes)?,
        rain: rain_places,
        wind: wind_places,
    })
}

fn make_weather(rt: &impl Abort, alloc: Global) -> Result<Weather, Fail> {
    let net = read_market(alloc, WEATHER.as_bytes())?.net;
    expect_sizes(rt, &net);
    let all = all(alloc, &net)?;
    Ok(with_scopes(alloc, net, all)?)
}

/// The rows of the wind times a message with the rows of the rain.
fn product<R: Semiring>(alloc: Global, weather: &Weather) -> Result<Tables<R>, NoMemory>
    ensures { IfOk result HaveRoom }
{
    let net = &weather.net;
    let _ = net.variables();
    let mut tables = Tables::<R>::ones(alloc, &weather.scopes)?;
    tables.times_rows(OF_RAIN, net, 0);
    tables.times_rows(OF_ALL, net, 1);
    tables.times_message(OF_ALL, &weather.rain, OF_RAIN);
    Ok(tables)
}

/// Ones times a message of ones.
fn ones_times_ones<R: Semiring>(alloc: Global, weather: &Weather) -> Result<Tables<R>, NoMemory>
    ensures { IfOk result HaveRoom }
{
    let mut tables = Tables::<R>::ones(alloc, &weather.scopes)?;
    tables.times_message(OF_ALL, &weather.rain, OF_RAIN);
    Ok(tables)
}

/// The cell of a number under a shift; what is exact has one form.
fn check(rt: &impl Abort, cell: Cell, n: u64, shift: u32) {
    assert!(rt; shift <= 80);
    let whole = Cell::of_whole(n, shift);
    assert!(rt; cell.digits == whole.digits);
    assert!(rt; cell.exponent == whole.exponent);
}

/// What is known of a table of all: the margin of each wind, and the total of the middle one times
/// a message with the rows of the rain and times ones. Then, with no other wind, a cell where it is
/// low, a dry one and a wet one.
struct Known {
    winds: [u64; 3],
    times: (u64, u64),
    cells: [u64; 3],
}

fn check_winds<R: Semiring>(rt: &impl Abort, tables: &Tables<R>, winds: &[u64; 3])
    requires { AreWeather tables.now }
{
    check(rt, tables.get(OF_WIND, 0), winds[0], 0);
    check(rt, tables.get(OF_WIND, 1), winds[1], 0);
    check(rt, tables.get(OF_WIND, 2), winds[2], 0);
}

fn check_margin<R: Semiring>(
    rt: &impl Abort,
    weather: &Weather,
    tables: &mut Tables<R>,
    winds: &[u64; 3],
)
    requires { HaveRoom tables.old }
    ensures { HaveRoom tables.new }
{
    tables.margin_into(OF_ALL, &weather.wind, OF_WIND);
    check_winds::<R>(rt, tables, winds);
}

/// Stops unless this is the total of the middle wind times the message, also by a margin whose
/// product is never made.
fn check_joined<R: Semiring>(
    rt: &impl Abort,
    weather: &Weather,
    tables: &mut Tables<R>,
    number: u64,
    chosen: &mut CellList,
)
    requires { HaveRoom tables.old }
    ensures { HaveRoom tables.new }
{
    let (rain, middle) = (&weather.rain, only(rt, MIDDLE));
    let total = tables.total_times(OF_ALL, rain, OF_RAIN, &middle, chosen);
    check(rt, total, number, 0);
    tables.margin_times_into(OF_ALL, &weather.wind, rain, OF_RAIN, OF_WIND);
    check(rt, tables.get(OF_WIND, 1), number, 0);
}

/// The same for a message with the rows of the rain, and for one that was cleared.
fn check_times<R: Semiring>(
    rt: &impl Abort,
    weather: &Weather,
    tables: &mut Tables<R>,
    times: (u64, u64),
    chosen: &mut CellList,
)
    requires { HaveRoom tables.old }
    ensures { HaveRoom tables.new }
{
    weigh_rain::<R>(weather, tables);
    check_joined::<R>(rt, weather, tables, times.0, chosen);
    tables.clear(OF_RAIN);
    check(rt, tables.get(OF_RAIN, 1), 1, 0);
    check_joined::<R>(rt, weather, tables, times.1, chosen);
}

/// Makes the message one with the rows of the rain, whatever it was.
fn weigh_rain<R: Semiring>(weather: &Weather, tables: &mut Tables<R>)
    requires { HaveRoom tables.old }
    ensures { HaveRoom tables.new }
{
    let _ = weather.net.variables();
    tables.clear(OF_RAIN);
    tables.times_rows(OF_RAIN, &weather.net, 0);
}

/// The total of the middle wind, before and after all other winds are made absent.
fn check_totals<R: Semiring>(
    rt: &impl Abort,
    tables: &mut Tables<R>,
    number: u64,
    chosen: &mut CellList,
)
    requires { HaveRoom tables.old }
    ensures { HaveRoom tables.new }
{
    let before = tables.total(OF_ALL, &only(rt, MIDDLE), chosen);
    tables.restrict(OF_ALL, MIDDLE);
    let after = tables.total(OF_ALL, &Event::empty(), chosen);
    check(rt, before, number, 0);
    check(rt, after, number, 0);
}

fn check_cells<R: Semiring>(rt: &impl Abort, tables: &Tables<R>, cells: &[u64; 3])
    requires { AreWeather tables.now }
{
    check(rt, tables.get(OF_ALL, 0), cells[0], 0);
    check(rt, tables.get(OF_ALL, 2), cells[1], 0);
    check(rt, tables.get(OF_ALL, 9), cells[2], 0);
}

fn check_table<R: Semiring>(
    rt: &impl Abort,
    alloc: Global,
    weather: &Weather,
    tables: &mut Tables<R>,
    known: &Known,
) -> Result<(), NoMemory>
    requires { HaveRoom tables.old }
{
    let mut chosen = CellList::new(alloc)?;
    check_margin::<R>(rt, weather, tables, &known.winds);
    check_times::<R>(rt, weather, tables, known.times, &mut chosen);
    check_totals::<R>(rt, tables, known.winds[1], &mut chosen);
    check_cells::<R>(rt, tables, &known.cells);
    Ok(())
}

/// Puts the message, which has the rows of the rain, into the table of all.
fn check_put<R: Semiring>(rt: &impl Abort, weather: &Weather, tables: &mut Tables<R>)
    requires { HaveRoom tables.old }
    ensures { HaveRoom tables.new }
{
    tables.put_message(OF_ALL, &weather.rain, OF_RAIN);
    check(rt, tables.get(OF_ALL, 5), 400_000, 0);
    check(rt, tables.get(OF_ALL, 6), 600_000, 0);
}

/// Makes each dry cell absent, and then the margin of the middle wind alone anew.
fn check_again<R: Semiring>(
    rt: &impl Abort,
    weather: &Weather,
    tables: &mut Tables<R>,
    winds: &[u64; 3],
    chosen: &mut CellList,
)
    requires { HaveRoom tables.old }
    ensures { HaveRoom tables.new }
{
    let middle = only(rt, MIDDLE);
    tables.restrict(OF_ALL, RAIN);
    tables.margin_again_into(OF_ALL, &weather.wind, &middle, chosen, OF_WIND);
    check_winds::<R>(rt, tables, winds);
}

/// A table that is cleared leaves the cells of the others as they were.
fn check_others<R: Semiring>(rt: &impl Abort, tables: &mut Tables<R>, winds: &[u64; 3])
    requires { HaveRoom tables.old }
{
    check(rt, tables.get(OF_ALL, 6), 600_000, 0);
    tables.clear(OF_ALL);
    check(rt, tables.get(OF_ALL, 6), 1, 0);
    check(rt, tables.get(OF_RAIN, 1), 600_000, 0);
    check_winds::<R>(rt, tables, winds);
}

/// A trade of the heat: 3 units where it is cold, and 5 where it is warm.
fn each_heat(condition: Event) -> Ratio
    requires few { length condition ≤ 8 }
    requires apart { speaks_of condition 2 ≡ false }
    ensures { trade_ratio result ≡ record { variable = 2; condition = condition; factors = 3 ∷ 5 ∷ [] } }
{
    let mut factors = ArrayVec::new();
    factors.push(3);
    factors.push(5);
    Ratio {
        variable: 2,
        condition,
        factors,
    }
}

/// A trade of the rain where it is warm: 7 units where it is dry, and 9 where it rains.
fn each_rain(rt: &impl Abort) -> Ratio
    ensures { trade_ratio result ≡ record { variable = 0; condition = WARM ∷ []; factors = 7 ∷ 9 ∷ [] } }
{
    let mut factors = ArrayVec::new();
    factors.push(7);
    factors.push(9);
    Ratio {
        variable: 0,
        condition: only(rt, WARM),
        factors,
    }
}

/// Ones times two ratios.
fn traded<R: Semiring>(rt: &impl Abort, alloc: Global, weather: &Weather) -> Result<Tables<R>, Fail>
    ensures { IfOk result AreWeather }
{
    let mut tables = Tables::<R>::ones(alloc, &weather.scopes)?;
    let mut chosen = CellList::new(alloc)?;
    tables.times_ratio(OF_ALL, &each_rain(rt), &mut chosen);
    tables.times_ratio(OF_ALL, &each_heat(only(rt, RAIN)), &mut chosen);
    assert_eq!(rt; tables.shift(OF_ALL), 80);
    Ok(tables)
}

fn check_put_and_others<R: Semiring>(
    rt: &impl Abort,
    alloc: Global,
    weather: &Weather,
    winds: &[u64; 3],
) -> Result<(), Fail> {
    let mut tables = product::<R>(alloc, weather)?;
    check_put::<R>(rt, weather, &mut tables);
    check_margin::<R>(rt, weather, &mut tables, &[winds[0]; 3]);
    check_again::<R>(rt, weather, &mut tables, winds, &mut CellList::new(alloc)?);
    check_others::<R>(rt, &mut tables, winds);
    Ok(())
}

fn check_traded<R: Semiring>(
    rt: &impl Abort,
    alloc: Global,
    weather: &Weather,
) -> Result<(), Fail> {
    let tables = traded::<R>(rt, alloc, weather)?;
    for (cell, number, shift) in [(0, 1, 0), (3, 7, 40), (8, 3, 40), (9, 45, 80)] {
        check(rt, tables.get(OF_ALL, cell), number, shift);
    }
    Ok(())
}

/// What is known of the product and of ones, and the margin of each wind where the middle one's
/// is made anew.
struct Expected {
    product: Known,
    ones: Known,
    put: [u64; 3],
}

/// Each call, by the numbers of the product and of ones.
fn check_calls<R: Semiring>(
    rt: &impl Abort,
    alloc: Global,
    weather: &Weather,
    expected: &Expected,
) -> Result<(), Fail> {
    let mut product = product::<R>(alloc, weather)?;
    check_table::<R>(rt, alloc, weather, &mut product, &expected.product)?;
    let mut ones = ones_times_ones::<R>(alloc, weather)?;
    check_table::<R>(rt, alloc, weather, &mut ones, &expected.ones)?;
    check_put_and_others::<R>(rt, alloc, weather, &expected.put)?;
    check_traded::<R>(rt, alloc, weather)
}

// For each wind two heats of 400,000 and 600,000 times its rows; then two heats of dry times
// 400,000 and of wet times 600,000. Where the message is put, each wind has two heats of 400,000
// and of 600,000, and the middle one, made anew without the dry cells, two of 600,000.
const SUMS: Expected = Expected {
    product: Known {
        winds: [440_000_000_000, 520_000_000_000, 1_040_000_000_000],
        times: (280_000_000_000_000_000, 520_000_000_000),
        cells: [0, 80_000_000_000, 180_000_000_000],
    },
    ones: Known {
        winds: [4, 4, 4],
        times: (2_000_000, 4),
        cells: [0, 1, 1],
    },
    put: [2_000_000, 1_200_000, 2_000_000],
};

const MINIMA: Expected = Expected {
    product: Known {
        winds: [40_000_000_000, 80_000_000_000, 240_000_000_000],
        times: (32_000_000_000_000_000, 80_000_000_000),
        cells: [0, 80_000_000_000, 180_000_000_000],
    },
    ones: Known {
        winds: [1, 1, 1],
        times: (400_000, 1),
        cells: [0, 1, 1],
    },
    put: [400_000, 600_000, 400_000],
};

/// Ones times a ratio where it rains.
fn heated(rt: &impl Abort, alloc: Global, weather: &Weather) -> Result<Tables<SumProd>, Fail>
    ensures weather { IfOk result AreWeather }
    ensures room { IfOk result (λ tables. HasRoom (table_in tables 0) 2) }
{
    let mut tables = Tables::<SumProd>::ones(alloc, &weather.scopes)?;
    assert!(rt; tables.is_untouched(OF_ALL, &Event::empty()));
    tables.times_ratio(
        OF_ALL,
        &each_heat(only(rt, RAIN)),
        &mut CellList::new(alloc)?,
    );
    assert!(rt; tables.is_untouched(OF_ALL, &only(rt, DRY)));
    assert!(rt; !tables.is_untouched(OF_ALL, &only(rt, RAIN)));
    assert!(rt; !tables.is_untouched(OF_ALL, &only(rt, WARM)));
    Ok(tables)
}

fn check_untouched(rt: &impl Abort, alloc: Global, weather: &Weather) -> Result<(), Fail> {
    let mut tables = heated(rt, alloc, weather)?;
    // The pair that both conditions have is kept alone.
    let both = only(rt, RAIN).with(HIGH).expect(rt, "two pairs");
    tables.times_ratio(OF_ALL, &each_heat(both), &mut CellList::new(alloc)?);
    assert!(rt; tables.is_untouched(OF_ALL, &only(rt, DRY)));
    assert!(rt; !tables.is_untouched(OF_ALL, &only(rt, MIDDLE)));
    // Where it is known to be dry, no cell that is left was touched.
    tables.restrict(OF_ALL, DRY);
    assert!(rt; tables.is_untouched(OF_ALL, &Event::empty()));
    Ok(())
}

fn check_two_conditions(rt: &impl Abort, alloc: Global, weather: &Weather) -> Result<(), Fail> {
    let mut tables = heated(rt, alloc, weather)?;
    tables.times_ratio(OF_ALL, &each_rain(rt), &mut CellList::new(alloc)?);
    assert!(rt; !tables.is_untouched(OF_ALL, &only(rt, DRY)));
    tables.restrict(OF_ALL, RAIN);
    assert!(rt; !tables.is_untouched(OF_ALL, &only(rt, DRY)));
    Ok(())
}

fn check_all(rt: &impl Abort, alloc: Global, weather: &Weather) -> Result<(), Fail> {
    check_calls::<SumProd>(rt, alloc, weather, &SUMS)?;
    check_calls::<MinProd>(rt, alloc, weather, &MINIMA)?;
    check_untouched(rt, alloc, weather)?;
    check_two_conditions(rt, alloc, weather)
}

#[test]
fn each_call_of_a_table(rt: HostRuntime) -> Result<(), Fail> {
    let weather = make_weather(&rt, rt.alloc())?;
    check_all(&rt, rt.alloc(), &weather)
}
