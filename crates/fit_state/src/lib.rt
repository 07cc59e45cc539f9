// The state of a fit, and the rows that a search makes of it: what they are, and how they are made, changed,
// moved about the mean and packed as flat numbers.
#![tactic(auto)]

pub mod errors; // errors.rt: sums of squares, and the error of moments
pub mod row; // row.rt: a row of a search
pub mod search; // search.rt: where a search starts, and what is moved back to the mean after it

ghost use Rattle.std.specs.Prelude.{◌≡◌};
ghost use Rattle.moments.specs.Lists.{five_of};
ghost use Rattle.fit_state.specs.Rows.{kept_row};
ghost use Rattle.fit_state.specs.State.{fit_part, state_with, with_fit};

use moments::{Five, Params};
use refusal::Refusal;
pub use row::FitResultRow;

// The target moments (the first `len` of 16), the settings, and the best fit so far. The moments are an array
// and a length, as document 01 names them: a state is a value of one size, with no heap. The last three are a
// `Fit`; they stand flat, as the Rust's state has them.
#[derive(Clone, Copy)]
pub struct M2N {
    pub moments: [f64; 16],
    pub len: usize,
    pub epsilon: f64,
    pub factor: f64,
    pub n_runs: usize,
    pub variant: usize,
    pub max_iter: usize,
    pub new_moments: Five,
    pub parameters: Params,
    pub error: f64,
}

// The part of the state that a walk changes.
#[derive(Clone, Copy, Default)]
pub struct Fit {
    pub new_moments: Five,
    pub parameters: Params,
    pub error: f64,
}

// The state after a walk or a search, and how it went.
#[derive(Clone, Copy)]
pub struct After<T> {
    pub state: M2N,
    pub outcome: Result<T, Refusal>,
}

impl From<M2N> for Fit {
    ghost from_gives = { λ m f. f ≡ fit_part m };

    fn from(m: M2N) -> Fit
        ensures { result ≡ fit_part m }
    {
        Fit {
            new_moments: m.new_moments,
            parameters: m.parameters,
            error: m.error,
        }
    }
}

// A state that has kept a fit, and zeros for all else: who makes a state gives its settings over it.
impl From<Fit> for M2N {
    ghost from_gives = { λ f m. m ≡ state_with f };

    fn from(f: Fit) -> M2N
        ensures { result ≡ state_with f }
    {
        M2N {
            moments: [0.0; 16],
            len: 0,
            epsilon: 0.0,
            factor: 0.0,
            n_runs: 0,
            variant: 0,
            max_iter: 0,
            new_moments: f.new_moments,
            parameters: f.parameters,
            error: f.error,
        }
    }
}

impl M2N {
    // The moments that a step reads.
    pub fn first_five(self) -> Five
        ensures { result ≡ five_of self.moments }
    {
        let [m_1, m_2, m_3, m_4, m_5, ..] = self.moments;
        Five {
            m_1,
            m_2,
            m_3,
            m_4,
            m_5,
        }
    }

    // The state with another fit in it.
    pub fn with_fit(self, f: Fit) -> M2N
        ensures { result ≡ with_fit self f }
    {
        M2N {
            new_moments: f.new_moments,
            parameters: f.parameters,
            error: f.error,
            ..self
        }
    }

    // The row of the fit that the state has kept.
    pub fn kept_row(self) -> FitResultRow
        ensures { result ≡ kept_row self }
    {
        FitResultRow::new(self.parameters, self.error)
    }
}
