// The parameters (relation/env_params.rs), read from the words of the job's section one.
// A slice is passed whole with the place of its run: contracts speak of places in the whole slice, and a struct of the two would be built anew at each call.
ghost use Rattle.std.specs.Prelude.{◌≡◌, ◌+◌, ◌≤◌, ◌<◌, length, get_or};
ghost use Rattle.spec_protocol.specs.Parameters.{three_words, rounded_up, parameters};
ghost use Rattle.relation_env_params.specs.Parameters.{parameters_of};

// The Rust's record, less what neither prover nor verifier reads (b_1, b_2 and the gammas), with the norm bounds of A, B, C and D.
#[derive(Clone, Copy)]
pub struct EnvironmentParameters {
    // n, the size of each witness vector
    pub rank: usize,
    // r, the number of witness vectors
    pub multiplicity: usize,
    // the base of all digits, and the parts of t and h and of g
    pub b: u32,
    pub t_1: usize,
    pub t_2: usize,
    pub beta_sq: u128,
    pub beta_prime_sq: u128,
    // the rows of A, of B and C, and of D
    pub kappa: usize,
    pub kappa_1: usize,
    pub kappa_2: usize,
    // K ring constraints, l constant-term constraints, L aggregated equations
    pub constraint_k: usize,
    pub constraint_l: usize,
    pub const_agg_length: usize,
    pub log_q: usize,
    pub bound_a: u128,
    pub bound_b: u128,
    pub bound_c: u128,
    pub bound_d: u128,
}

const SECURITY_PARAMETER: usize = 128;

// A word as a usize: Rust has no `From<u32>` for usize.
fn size(job: &[u32], at: usize) -> usize
    requires { at < length job.now }
    ensures { result ≡ get_or job.now at 0 }
{
    job[at] as usize
}

// "each three words, least first"
fn bound(job: &[u32], at: usize) -> u128
    requires { at + 2 < length job.now }
    ensures { result ≡ three_words job.now at }
{
    let least = u128::from(job[at]);
    let middle = u128::from(job[at + 1]);
    let most = u128::from(job[at + 2]);
    least + middle * 4294967296 + most * 18446744073709551616
}

// "128 divided by log_q, rounded up": the least L.
pub fn least_aggregations(log_q: usize) -> usize
    requires { (16 ≤ log_q) × (log_q ≤ 32) }
    ensures { result ≡ rounded_up log_q }
{
    SECURITY_PARAMETER.div_ceil(log_q)
}

impl EnvironmentParameters {
    // The parameters that the words of section one stand for.
    pub fn of_words(job: &[u32]) -> EnvironmentParameters
        requires { 31 ≤ length job.now }
        ensures { parameters_of result ≡ parameters job.now }
    {
        EnvironmentParameters {
            rank: size(job, 1),
            multiplicity: size(job, 2),
            b: job[9],
            t_1: size(job, 10),
            t_2: size(job, 11),
            beta_sq: bound(job, 13),
            beta_prime_sq: bound(job, 16),
            kappa: size(job, 3),
            kappa_1: size(job, 4),
            kappa_2: size(job, 5),
            constraint_k: size(job, 6),
            constraint_l: size(job, 7),
            const_agg_length: size(job, 12),
            log_q: size(job, 8),
            bound_a: bound(job, 19),
            bound_b: bound(job, 22),
            bound_c: bound(job, 25),
            bound_d: bound(job, 28),
        }
    }
}
