// What the verifier judges: a job, a randomness and a transcript that are refused nothing, with the parameters of the job.
ghost use Rattle.std.specs.Prelude.{◌≡◌, ◌+◌, ◌<◌};
ghost use Rattle.spec_protocol.specs.Layout.{start, job_sections, randomness_sections, transcript_sections};
ghost use Rattle.relation_env_params.specs.Parameters.{parameters_of};
ghost use Rattle.verifier_common.specs.Unique.{Sent-prop};
ghost use Rattle.verifier_common.specs.Work.{Sent};

use layout_sizes::offsets;
use relation_env_params::env_params::EnvironmentParameters;

#[derive(Clone, Copy)]
pub struct Exchange<'a> {
    pub job: &'a [u32],
    pub randomness: &'a [u32],
    pub transcript: &'a [u32],
    pub params: EnvironmentParameters,
    pub ghost sent: { Sent job.now randomness.now transcript.now params } by { Sent-prop job.now randomness.now transcript.now params },
}

impl Exchange<'_> {
    // Where a section of the job starts, of those after section one, counted from 0.
    pub fn job_at(&self, m: usize) -> usize
        requires { m < 10 }
        ensures { result ≡ 31 + start (job_sections (parameters_of self.now.params)) m }
    {
        offsets::of_job(self.params, m)
    }

    // A section of the randomness.
    pub fn randomness_at(&self, m: usize) -> usize
        requires { m < 7 }
        ensures { result ≡ start (randomness_sections (parameters_of self.now.params)) m }
    {
        offsets::of_randomness(self.params, m)
    }

    // A section of the transcript.
    pub fn transcript_at(&self, m: usize) -> usize
        requires { m < 8 }
        ensures { result ≡ start (transcript_sections (parameters_of self.now.params)) m }
    {
        offsets::of_transcript(self.params, m)
    }
}
