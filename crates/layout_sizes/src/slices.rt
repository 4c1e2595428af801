// The sections of the job after section one, of the randomness, of the witness and of the transcript.
ghost use Rattle.std.specs.Prelude.{◌≡◌, ◌≤◌};
ghost use Rattle.spec_protocol.specs.Parameters.{triangular};
ghost use Rattle.spec_protocol.specs.Layout.{job_sections, randomness_sections, witness_sections, transcript_sections};
ghost use Rattle.spec_protocol.specs.Layout as L;
ghost use Rattle.layout_sections.specs.Sections.{section_of};
ghost use Rattle.relation_env_params.specs.Parameters.{parameters_of};
ghost use Rattle.layout_sizes.specs.Sizes.{Sized, IsTable};

use layout_sections::sections::Section;
use relation_env_params::env_params::EnvironmentParameters;
use ring_rq_matrix::triangles;
use spec_leaves::modulus;

// T, of at most 16 rows.
pub fn triangle(r: usize) -> usize
    requires { r ≤ 16 }
    ensures { (result ≡ triangular r) × (result ≤ 136) }
{
    triangles::cells(r)
}

// A section of canonical words.
pub fn canonical(count: usize) -> Section
    ensures { section_of result ≡ L.canonical count }
{
    Section {
        count,
        greatest: modulus::TOP,
    }
}

// "constant-term constraints: l triangles a', then l·r·n elements φ', then l words b0; ring constraints: K triangles a, K·r·n elements φ,
// K elements b; matrices A (κ rows of n), B (κ1 rows of r·κ·t1), C (κ1 rows of T·t2), D (κ2 rows of T·t1)"
pub fn job_sections(params: EnvironmentParameters) -> [Section; 10]
    requires { Sized (parameters_of params) }
    ensures { IsTable (job_sections (parameters_of params)) result }
{
    let n = params.rank;
    let r = params.multiplicity;
    let l = params.constraint_l;
    let k = params.constraint_k;
    let kappa = params.kappa;
    let kappa_1 = params.kappa_1;
    let kappa_2 = params.kappa_2;
    let t_1 = params.t_1;
    let t_2 = params.t_2;
    let t = triangle(r);
    [
        canonical(64 * (l * t)),
        canonical(64 * (l * r * n)),
        canonical(l),
        canonical(64 * (k * t)),
        canonical(64 * (k * r * n)),
        canonical(64 * k),
        canonical(64 * (kappa * n)),
        canonical(64 * (kappa_1 * (r * kappa * t_1))),
        canonical(64 * (kappa_1 * (t * t_2))),
        canonical(64 * (kappa_2 * (t * t_1))),
    ]
}

// "16384·n·r projection words […]; psi, L rows of l; omega, L rows of 256; alpha, K elements; beta, L elements; 41·r sign words; 63·r shuffle
// words"; "sign words are 0 or 1, shuffle words are free"
pub fn randomness_sections(params: EnvironmentParameters) -> [Section; 7]
    requires { Sized (parameters_of params) }
    ensures { IsTable (randomness_sections (parameters_of params)) result }
{
    let n = params.rank;
    let r = params.multiplicity;
    let l = params.constraint_l;
    let k = params.constraint_k;
    let rows = params.const_agg_length;
    [
        canonical(16384 * n * r),
        canonical(rows * l),
        canonical(rows * 256),
        canonical(64 * k),
        canonical(64 * rows),
        Section {
            count: 41 * r,
            greatest: 1,
        },
        Section {
            count: 63 * r,
            greatest: u32::MAX,
        },
    ]
}

// "Witness: r·n elements, s_1 to s_r."
pub fn witness_sections(params: EnvironmentParameters) -> [Section; 1]
    requires { Sized (parameters_of params) }
    ensures { IsTable (witness_sections (parameters_of params)) result }
{
    [canonical(64 * (params.multiplicity * params.rank))]
}

// "Transcript: u1 (κ1 elements), p (256 words), b''" of L elements, "u2 (κ2), z (n), t (r·κ), g (T), h (T)."
pub fn transcript_sections(params: EnvironmentParameters) -> [Section; 8]
    requires { Sized (parameters_of params) }
    ensures { IsTable (transcript_sections (parameters_of params)) result }
{
    let n = params.rank;
    let r = params.multiplicity;
    let kappa = params.kappa;
    let kappa_1 = params.kappa_1;
    let kappa_2 = params.kappa_2;
    let rows = params.const_agg_length;
    let t = triangle(r);
    [
        canonical(64 * kappa_1),
        canonical(256),
        canonical(64 * rows),
        canonical(64 * kappa_2),
        canonical(64 * n),
        canonical(64 * (r * kappa)),
        canonical(64 * t),
        canonical(64 * t),
    ]
}
