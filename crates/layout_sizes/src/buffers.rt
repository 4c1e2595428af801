// The lengths that a call needs of the lent buffers.
ghost use Rattle.std.specs.Prelude.{◌≡◌, ◌+◌, ◌≤◌, take, drop};
ghost use Rattle.spec_protocol.specs.Layout.{span, transcript_sections, scratch_need};
ghost use Rattle.relation_env_params.specs.Parameters.{parameters_of};
ghost use Rattle.layout_sizes.specs.Sizes.{Sized};

use crate::slices;
use layout_sections::sections;
use relation_env_params::env_params::EnvironmentParameters;

// "64·((L+2)(r·n+T)+r·κ+n+64) words"
pub fn scratch_length(params: EnvironmentParameters) -> usize
    requires { Sized (parameters_of params) }
    ensures { result ≡ scratch_need (parameters_of params) }
{
    let n = params.rank;
    let r = params.multiplicity;
    let kappa = params.kappa;
    let rows = params.const_agg_length;
    let t = slices::triangle(r);
    64 * ((rows + 2) * (r * n + t) + r * kappa + n + 64)
}

// The transcript's sections from one on, counts included, that a call makes.
pub fn output_length(params: EnvironmentParameters, from: usize, makes: usize) -> usize
    requires { Sized (parameters_of params) × (from + makes ≤ 8) }
    ensures { result ≡ span (take makes (drop from (transcript_sections (parameters_of params)))) }
{
    let all = slices::transcript_sections(params);
    sections::span(&all[from..from + makes])
}
