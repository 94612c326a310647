//! What is drawn from a seed.
//!
//! Firms count from 0, two to a market. A number of a firm is that of its draw, counted from the seed.
ghost use Rattle.std.specs.Prelude.{◌≡◌, ◌<◌, ◌≤◌};
ghost use Rattle.emp_make.specs.Markets.{state, draws_before, demand, cost, cap};

/// The state after so many draws.
fn state(seed: u64, draws: u32) -> u32
    ensures value { result ≡ state seed draws }
    ensures small { result < 65537 }
{
    let mut state = (seed % 65537) as u32;
    for _ in 0..draws {
        state = (75 * state + 74) % 65537;
    }
    state
}

/// How many draws there are before those of the firm's market.
fn draws_before(firm: u32) -> u32
    requires { firm < 40 }
    ensures value { result ≡ draws_before firm }
    ensures small { result ≤ 95 }
{
    5 * (firm / 2)
}

/// What the firm's market would pay for a first unit.
pub fn demand(seed: u64, firm: u32) -> u32
    requires { firm < 40 }
    ensures { result ≡ demand seed firm }
{
    20 + state(seed, draws_before(firm) + 1) % 20
}

/// The cost of a unit to the firm.
pub fn cost(seed: u64, firm: u32) -> u32
    requires { firm < 40 }
    ensures { result ≡ cost seed firm }
{
    1 + state(seed, draws_before(firm) + 2 * (firm % 2) + 2) % 9
}

/// How much the firm can make.
pub fn cap(seed: u64, firm: u32) -> u32
    requires { firm < 40 }
    ensures { result ≡ cap seed firm }
{
    4 + state(seed, draws_before(firm) + 2 * (firm % 2) + 3) % 16
}
