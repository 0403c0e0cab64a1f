//! What is read of a worker.

ghost use Rattle.std.specs.Prelude.{◌≡◌, false, slice_index_or};
ghost use Rattle.block_pool.specs.Memory.{Memory};
ghost use Rattle.exec_core.specs.Stands.{HasWork, OfWorks, is_over};
ghost use Rattle.sial_meaning.specs.Own.{is_created, scalar_of};
ghost use Rattle.sial_meaning.specs.Rest.{place};
ghost use Rattle.sial_meaning.specs.Setting.{Setting};
ghost use Rattle.sip_setting.specs.Seen.{setting_of};

use crate::local::Local;
use exec_job::Job;
use sip_tables::Operation;

impl Local {
    /// The number of the instruction at the cursor.
    pub fn place(&self) -> u32
        ensures { (g : Setting) (p : Memory) → OfWorks g p self.now (λ rest own partials. result ≡ place rest) }
    {
        self.control.at()
    }

    /// Whether the program is over.
    pub fn at_end(&self, job: &Job) -> bool
        requires { HasWork (setting_of job.now) self.now }
        ensures { (p : Memory) → OfWorks (setting_of job.now) p self.now (λ rest own partials. result ≡ is_over rest) }
    {
        let instruction = job.instruction(self.control.at());
        matches!(&instruction.operation, Operation::Stop)
    }

    /// The number of a scalar that isn't partial, where it is set.
    pub fn scalar(&self, scalar: u16) -> Option<u64>
        ensures { (g : Setting) (p : Memory) → OfWorks g p self.now (λ rest own partials. result ≡ scalar_of own scalar) }
    {
        self.scalars.get(scalar)
    }

    /// The worker's own number of a partial scalar.
    pub fn partial(&self, scalar: u16) -> u64
        ensures { (g : Setting) (p : Memory) → OfWorks g p self.now (λ rest own partials. result ≡ slice_index_or partials scalar 0) }
    {
        self.scalars.partial(scalar)
    }

    /// Whether a distributed array is created.
    pub fn created(&self, array: u16) -> bool
        ensures value { result ≡ slice_index_or self.now.created array false }
        ensures does { (g : Setting) (p : Memory) → OfWorks g p self.now (λ rest own partials. result ≡ is_created own array) }
    {
        self.created.get(array as usize).copied().unwrap_or(false)
    }
}
