// The rows of a search, each a walk from its mean and its weight.
#![tactic(auto)]

ghost use Rattle.std.specs.Prelude.{◌≡◌, ◌+◌, ◌<◌, ◌≤◌, ◌^◌, min, length};
ghost use Rattle.moments.specs.Lists.{listed};
ghost use Rattle.walk.specs.Walk.{walk_of};
ghost use Rattle.grid_rows.specs.Rows.{Means, Variances, looked, mean_of, search_to};

use fit_state::{FitResultRow, M2N};
use moments::Five;

// The state, the smallest error of a row so far, and the row that has it. It goes from row to row, where
// what a whole search leaves has no use for the smallest error.
#[derive(Clone, Copy)]
pub struct Search {
    pub state: M2N,
    pub err_min: f64,
    pub best: Option<FitResultRow>,
}

// A row is made where its walk left a strictly smaller error than any row's before it.
fn look(s: Search, m: M2N) -> Search
    ensures { result ≡ looked s m }
{
    if m.error < s.err_min {
        Search {
            state: m,
            err_min: m.error,
            best: Some(m.kept_row()),
        }
    } else {
        Search { state: m, ..s }
    }
}

// The sigma_2^2 of the first step from each of these means, as far as there are weights. Nothing branches
// here, and the means are there already, so that the processor has many rows in hand. They are put by index:
// of what goes through a zip of `iter_mut` a proof knows no number afterwards.
fn variances(a: Five, means: [f64; 256], weights: &[f64]) -> [f64; 256]
    ensures { Variances (listed a) means weights.now result }
{
    let mut v = means;
    let n = usize::min(weights.len(), 256);
    for (j, weight) in weights[..n].iter().enumerate() {
        v[j] = step::sigma_2_squared(a, v[j], *weight);
    }
    v
}

// One row more, by a walk.
fn walk_row(s: Search, mu_2: f64, p_1: f64) -> Search
    ensures { result ≡ looked s (walk_of s.state mu_2 p_1).state }
{
    look(s, walk::iterate_from(s.state, mu_2, p_1).state)
}

// Where the rows start: the state, and the deviation that spreads their means.
#[derive(Clone, Copy)]
struct Grid {
    m: M2N,
    deviation: f64,
}

impl Grid {
    // The starting mean of row i.
    #[tactic(auto, unfolding(crate::specs::Rows::mean_of))]
    fn mean(self, i: usize) -> f64
        requires { i < 2 ^ 18 }
        ensures { result ≡ mean_of self.m self.deviation i }
    {
        i as f64 * self.m.epsilon * self.m.factor * self.deviation + self.m.moments[0]
    }

    // The starting means of the k rows after the first `from`, of 256 at most. Of a block that is not full the
    // others would be worked out for nothing, and a search of a row or two took twice as long.
    fn means(self, from: usize, k: usize) -> [f64; 256]
        requires { from ≤ 131072 }
        ensures { Means self.m self.deviation from k result }
    {
        let mut u = [0.0f64; 256];
        for j in 0..usize::min(k, 256) {
            u[j] = self.mean(from + j + 1);
        }
        u
    }

    // The rows after the first `from`, 256 or as many as there are. Where sigma_2^2 is below zero the walk
    // ends at its first step and leaves all as it was: so end most rows, and they are passed over. The loop
    // goes by an index: over a zip of the three it was proved too, and a search took a tenth longer.
    fn walk_block(self, s: Search, weights: &[f64], from: usize) -> Search
        requires { (s ≡ search_to self.m self.deviation weights.now from) × (from ≤ length weights.now) × (from ≤ 131072) }
        ensures { result ≡ search_to self.m self.deviation weights.now (min (from + 256) (length weights.now)) }
    {
        let block = &weights[from..];
        let means = self.means(from, block.len());
        let variances = variances(self.m.first_five(), means, block);
        let mut t = s;
        for j in 0..usize::min(block.len(), 256) {
            if variances[j] < 0.0 {
                continue;
            }
            t = walk_row(t, means[j], block[j]);
        }
        t
    }
}

// A walk from each row's mean and weight; the error carries over. Of more weights than 131,072, which
// is more than a search has rows, the first are walked from.
#[tactic(auto, unfolding(crate::specs::Rows::search_to))]
pub fn walk_rows(m: M2N, deviation: f64, weights: &[f64]) -> Search
    ensures { result ≡ search_to m deviation weights.now (min (length weights.now) 131072) }
{
    let weights = &weights[..usize::min(weights.len(), 131072)];
    let grid = Grid { m, deviation };
    let mut s = Search {
        state: m,
        err_min: m.error,
        best: None,
    };
    for from in (0..weights.len()).step_by(256) {
        s = grid.walk_block(s, weights, from);
    }
    s
}
