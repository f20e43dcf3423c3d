// The drawing: moves from all weight on the first row until the weights are Settled or the budget is used.
#![tactic(auto)]

ghost use Rattle.std.specs.Prelude.{◌≡◌, not, ◌&&◌, ltb};
ghost use Rattle.geometry.specs.Move.{is_settled};
ghost use Rattle.geometry.specs.Table.{coordinate};
ghost use Rattle.limits.specs.Limits.{total, row_limit};
ghost use Rattle.drawing.specs.Draw.{start, run_from, drawn, drawing_outcome};
ghost use Rattle.geometry.specs.Clauses.{Table};
ghost use Rattle.drawing.specs.Clauses.{Ran, DrawPromise};

use ball::{Ball, ball_of_scores};
use figures::table::rows_within;
use limits::{BUDGET_MOST, ROWS, TOTAL};
use moves::Pair;
use moves::step::{one_move, pair_of_scores, transfer_of};
use refusal::{Kind, Refusal};
use scores::kept::KeptColumns;

// A drawing; `ball.settled` tells the ending: Settled, else Budget.
#[derive(Drop)]
pub struct Drawing {
    pub ball: Ball,
    pub weights: [u32; ROWS],
    pub moves: u32,
}

// The end of a run of moves: the weights, the pair of rows that the weights have, by e, and the moves made.
#[derive(Drop)]
struct Ended {
    weights: [u32; ROWS],
    pair: Pair,
    moves: u32,
}

// All weight on the first row.
fn all_on_first() -> [u32; ROWS]
    ensures { result ≡ start row_limit total }
{
    let mut weights = [0u32; ROWS];
    weights[0] = TOTAL;
    weights
}

// Whether another move is made: the weights are not Settled and the budget is not used.
fn goes_on(difference: u64, separation: u64, moves: u32, budget: u32) -> bool
    ensures { result ≡ (not (is_settled difference separation) && ltb moves budget) }
{
    separation < difference && moves < budget
}

// The moves. e of each row is carried from move to move, with columns of squared distances kept beside it.
fn run(rows: &[i32], m: usize, n: usize, budget: u32) -> Ended
    requires { Table rows.now m n }
    ensures { Ran total row_limit rows.now m n budget result }
{
    let mut weights = all_on_first();
    let mut scores = [0u64; ROWS];
    let mut columns = KeptColumns::new();
    columns.first_scores(rows, m, n, &mut scores);
    let mut pair = pair_of_scores(rows, m, n, &weights, &scores);
    let mut moves: u32 = 0;
    // Only the weights tell how often it turns.
    while goes_on(pair.difference, pair.separation, moves, budget) {
        let from = pair.near;
        let to = pair.far;
        let t = transfer_of(pair.difference, pair.separation, weights[from]);
        weights = one_move(weights, from, to, t);
        columns.carry_scores(rows, m, n, from, to, t, &mut scores);
        pair = pair_of_scores(rows, m, n, &weights, &scores);
        moves += 1;
    }
    Ended {
        weights,
        pair,
        moves,
    }
}

// The drawing of rows within limits with a budget within its limit.
fn drawn_within(rows: &[i32], m: usize, n: usize, budget: u32) -> Drawing
    requires { Table rows.now m n }
    ensures { drawing_outcome row_limit (Ok result) ≡ drawn total m n (coordinate rows.now n) (run_from total m n (coordinate rows.now n) budget 0 (start row_limit total)) }
{
    let ended = run(rows, m, n, budget);
    Drawing {
        ball: ball_of_scores(rows, m, n, &ended.weights, ended.pair),
        weights: ended.weights,
        moves: ended.moves,
    }
}

// The drawing of the first m rows of n channels with a budget of moves. Refused: 8, then 9.
pub fn draw(rows: &[i32], m: usize, n: usize, budget: u32) -> Result<Drawing, Refusal>
    ensures { DrawPromise rows.now m n budget (drawing_outcome row_limit result) }
{
    if !rows_within(rows, m, n) {
        return Err(Kind::OutsideLimits.into());
    }
    if BUDGET_MOST < budget {
        return Err(Kind::BudgetTooLarge.into());
    }
    Ok(drawn_within(rows, m, n, budget))
}
