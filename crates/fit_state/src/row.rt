// A row of a search, and rows as flat numbers.
ghost use Rattle.std.specs.Prelude.{◌≡◌};
ghost use Rattle.fit_state.specs.Rows.{params_in, row_from, row_of, six, with_row_in};

use moments::Params;

// One fitted mixture.
#[derive(Clone, Copy, Default)]
pub struct FitResultRow {
    pub mu_1: f64,
    pub mu_2: f64,
    pub sigma_1: f64,
    pub sigma_2: f64,
    pub p_1: f64,
    pub error: f64,
}

impl FitResultRow {
    pub fn new(p: Params, error: f64) -> FitResultRow
        ensures { result ≡ row_of p error }
    {
        FitResultRow {
            mu_1: p.mu_1,
            mu_2: p.mu_2,
            sigma_1: p.sigma_1,
            sigma_2: p.sigma_2,
            p_1: p.p_1,
            error,
        }
    }

    // Puts the row's six numbers in place i of flat rows. Where there is no such place nothing is put.
    #[tactic(auto, using(crate::proofs::Places::row_copied))]
    pub fn put_at(self, numbers: &mut [f64], i: usize)
        ensures { numbers.new ≡ with_row_in numbers.old i self }
    {
        if i < numbers.len() / 6 {
            numbers[6 * i..6 * i + 6].copy_from_slice(&<[f64; 6]>::from(self));
        }
    }
}

impl From<FitResultRow> for Params {
    ghost from_gives = { λ row p. p ≡ params_in row };

    fn from(row: FitResultRow) -> Params
        ensures { result ≡ params_in row }
    {
        Params {
            mu_1: row.mu_1,
            mu_2: row.mu_2,
            sigma_1: row.sigma_1,
            sigma_2: row.sigma_2,
            p_1: row.p_1,
        }
    }
}

impl From<FitResultRow> for [f64; 6] {
    ghost from_gives = { λ row numbers. numbers ≡ six row };

    fn from(row: FitResultRow) -> [f64; 6]
        ensures { result ≡ six row }
    {
        [
            row.mu_1,
            row.mu_2,
            row.sigma_1,
            row.sigma_2,
            row.p_1,
            row.error,
        ]
    }
}

impl From<[f64; 6]> for FitResultRow {
    ghost from_gives = { λ numbers row. row ≡ row_from numbers };

    fn from(numbers: [f64; 6]) -> FitResultRow
        ensures { result ≡ row_from numbers }
    {
        let [mu_1, mu_2, sigma_1, sigma_2, p_1, error] = numbers;
        Self {
            mu_1,
            mu_2,
            sigma_1,
            sigma_2,
            p_1,
            error,
        }
    }
}
