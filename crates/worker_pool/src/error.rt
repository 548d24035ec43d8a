//! Why a run or its local parts did not finish.

ghost use Rattle.std.specs.Prelude.{◌≡◌, ◌↔◌, ◌||◌, IsOk, IsErrOf, IsTrue, IsFalse, is_err};

use std::alloc::AllocError;

/// Why a call of the pool did not answer `Ok`, in the order in which the causes are tried (own rules).
#[derive(Clone, Copy, Debug, PartialEq, Eq)]
pub enum PoolError {
    /// The number of workers is not 1 to 64.
    BadWorkers,
    /// The slice is not 1 to 1,048,576 steps.
    BadSlice,
    /// A thread could not be started.
    NoWorker,
    /// A request for memory was refused.
    NoMemory,
}

impl From<AllocError> for PoolError {
    ghost use Rattle.std.specs.Prelude.{◌≡◌};
    ghost use Rattle.worker_pool.specs.declared.error.PoolError.TheVariants.{NoMemory};

    ghost from_gives = { λ _ e. e ≡ NoMemory };

    fn from(_: AllocError) -> PoolError {
        PoolError::NoMemory
    }
}

/// What was refused to some workers. Their nodes have been run all the same, each as far as memory allowed.
#[derive(Clone, Copy, Debug, PartialEq, Eq)]
pub(crate) struct Refused {
    /// A thread could not be started.
    pub(crate) thread: bool,
    /// A request for memory was refused.
    pub(crate) memory: bool,
}

impl Refused {
    pub(crate) const NOTHING: Refused = Refused {
        thread: false,
        memory: false,
    };

    pub(crate) const A_THREAD: Refused = Refused {
        thread: true,
        memory: false,
    };

    pub(crate) const MEMORY: Refused = Refused {
        thread: false,
        memory: true,
    };

    /// What a call was refused that asks for memory alone.
    pub(crate) fn by(answer: Result<(), AllocError>) -> Refused
        ensures thread { IsFalse result.thread }
        ensures memory { result.memory ≡ is_err answer }
    {
        Refused {
            thread: false,
            memory: answer.is_err(),
        }
    }

    /// What was refused in two parts together.
    pub(crate) fn and(self, other: Refused) -> Refused
        ensures thread { result.thread ≡ (self.thread || other.thread) }
        ensures memory { result.memory ≡ (self.memory || other.memory) }
    {
        Refused {
            thread: self.thread || other.thread,
            memory: self.memory || other.memory,
        }
    }

    /// What a call answers to which this was refused.
    ///
    /// # Errors
    /// [`PoolError::NoWorker`] wherever a thread could not be started, be memory refused besides or not, and [`PoolError::NoMemory`] if
    /// memory alone was refused.
    pub(crate) fn answer(self) -> Result<(), PoolError>
        ensures ok { IsOk result ↔ (IsFalse self.thread × IsFalse self.memory) }
        ensures no_worker { IsErrOf result PoolError.NoWorker ↔ IsTrue self.thread }
        ensures no_memory { IsErrOf result PoolError.NoMemory ↔ (IsFalse self.thread × IsTrue self.memory) }
    {
        if self.thread {
            return Err(PoolError::NoWorker);
        }
        if self.memory {
            return Err(PoolError::NoMemory);
        }
        Ok(())
    }
}
