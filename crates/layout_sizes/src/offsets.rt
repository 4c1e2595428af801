// Where the words of a section start in its slice.
ghost use Rattle.std.specs.Prelude.{◌≡◌, ◌+◌, ◌<◌};
ghost use Rattle.spec_protocol.specs.Layout.{start, job_sections, randomness_sections, transcript_sections};
ghost use Rattle.relation_env_params.specs.Parameters.{parameters_of};
ghost use Rattle.layout_sizes.specs.Sizes.{Sized};

use crate::slices;
use layout_sections::sections;
use relation_env_params::env_params::EnvironmentParameters;

// Of the job's sections after section one, counted from 0.
pub fn of_job(params: EnvironmentParameters, m: usize) -> usize
    requires { Sized (parameters_of params) × (m < 10) }
    ensures { result ≡ 31 + start (job_sections (parameters_of params)) m }
{
    31 + sections::start(&slices::job_sections(params), m)
}

// Of the randomness's sections.
pub fn of_randomness(params: EnvironmentParameters, m: usize) -> usize
    requires { Sized (parameters_of params) × (m < 7) }
    ensures { result ≡ start (randomness_sections (parameters_of params)) m }
{
    sections::start(&slices::randomness_sections(params), m)
}

// Of the transcript's sections.
pub fn of_transcript(params: EnvironmentParameters, m: usize) -> usize
    requires { Sized (parameters_of params) × (m < 8) }
    ensures { result ≡ start (transcript_sections (parameters_of params)) m }
{
    sections::start(&slices::transcript_sections(params), m)
}
