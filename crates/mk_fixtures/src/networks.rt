//! Market files, small ones.

/// One question of even odds.
pub const COIN: &str = "points_per_bit = 100
max_trades = 77
cliques = [['coin']]
links = []

[[variable]]
name = 'coin'
values = ['heads', 'tails']
parents = []
rows = [[500000, 500000]]
";

/// A gate with three values, of which the last cannot come.
pub const GATE: &str = "points_per_bit = 100
max_trades = 1000
cliques = [['gate']]
links = []
zeros = true

[[variable]]
name = 'gate'
values = ['open', 'shut', 'gone']
parents = []
rows = [[250000, 750000, 0]]
";

/// Three variables, each the parent of the next, in the cliques {a, b}, {b, c} and {c}, linked in a
/// row.
pub const CHAIN: &str = "points_per_bit = 100
max_trades = 77
cliques = [['a', 'b'], ['b', 'c'], ['c']]
links = [1, 2]
variable = [
{name = 'a', values = ['up', 'down'], parents = [], rows = [[500000, 500000]]},
{name = 'b', values = ['up', 'down'], parents = ['a'], rows = [[600000, 400000], [300000, 700000]]},
{name = 'c', values = ['up', 'down'], parents = ['b'], rows = [[800000, 200000], [100000, 900000]]},
]
";

/// A season and its rain, in the cliques {season, rain} and {season}.
pub const WEATHER: &str = "points_per_bit = 100
max_trades = 77
cliques = [['season', 'rain'], ['season']]
links = [1]
variable = [
{name = 'season', values = ['wet', 'dry'], parents = [], rows = [[400000, 600000]]},
{name = 'rain', values = ['yes', 'no'], parents = ['season'], rows = [
[700000, 300000], [100000, 900000]]},
]
";
