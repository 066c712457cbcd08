// How the work of a run is cut and shared.

ghost use Rattle.std.specs.Prelude.{◌≡◌, IfSome, IsNone, MatchOption, unwrap_or};
ghost use Rattle.ssb_reply.specs.Settings.{AreInRange, IsBatch};

/// How many workers there are where nothing else is said.
pub const DEFAULT_WORKERS: u32 = 4;

/// How many rows a morsel has where nothing else is said.
pub const DEFAULT_MORSEL_SIZE: u32 = 10_000;

/// How many parts there are where nothing else is said.
pub const DEFAULT_PARTS: u32 = 1;

/// How many morsels a worker takes at a time where nothing else is said.
pub const DEFAULT_BATCH: u32 = 1;

/// How the work of a run is cut and shared. It changes no answer.
#[derive(Clone, Copy)]
pub struct Settings {
    /// How many workers take morsels, each in a thread of its own: 1 to 64.
    pub workers: u32,
    /// How many rows of the fact table are one morsel: 1 to 1,048,576.
    pub morsel_size: u32,
    /// Of how many parts, one for each section of the morsels, workers take them: 1 to 16.
    pub parts: u32,
    /// Up to how many morsels a worker takes at a time: 1 to 64.
    pub batch: u32,
    ghost in_range: { AreInRange workers morsel_size parts },
    ghost batch_in_range: { IsBatch batch },
}

impl Settings {
    const MAX_WORKERS: u32 = 64;

    const MAX_MORSEL_SIZE: u32 = 1_048_576;

    const MAX_PARTS: u32 = 16;

    const MAX_BATCH: u32 = 64;

    /// Settings of these numbers, with one morsel at a time; none where one is outside its range.
    pub fn new(workers: u32, morsel_size: u32, parts: u32) -> Option<Settings>
        ensures given { MatchOption result (AreInRange workers morsel_size parts → ⊥) (λ s. (s.workers ≡ workers) × (s.morsel_size ≡ morsel_size) × (s.parts ≡ parts)) }
        ensures batch { IfSome result (λ s. s.batch ≡ 1) }
    {
        if workers == 0 || workers > Settings::MAX_WORKERS {
            return None;
        }
        if morsel_size == 0 || morsel_size > Settings::MAX_MORSEL_SIZE {
            return None;
        }
        if parts == 0 || parts > Settings::MAX_PARTS {
            return None;
        }
        Some(Settings {
            workers,
            morsel_size,
            parts,
            batch: 1,
        })
    }

    /// The same settings with up to so many morsels at a time; none where that is not 1 to 64.
    pub fn with_batch(self, batch: u32) -> Option<Settings>
        ensures { MatchOption result (IsBatch batch → ⊥) (λ s. (s.batch ≡ batch) × (s.workers ≡ self.workers) × (s.morsel_size ≡ self.morsel_size) × (s.parts ≡ self.parts)) }
    {
        if batch == 0 || batch > Settings::MAX_BATCH {
            return None;
        }
        let Settings {
            workers,
            morsel_size,
            parts,
            ..
        } = self;
        Some(Settings {
            workers,
            morsel_size,
            parts,
            batch,
        })
    }

    /// Settings of the numbers that are given, and the defaults; none where one is outside its range.
    pub fn with_defaults(
        workers: Option<u32>,
        morsel_size: Option<u32>,
        parts: Option<u32>,
        batch: Option<u32>,
    ) -> Option<Settings>
        ensures workers { IfSome result (λ s. s.workers ≡ unwrap_or workers DEFAULT_WORKERS) }
        ensures morsel_size { IfSome result (λ s. s.morsel_size ≡ unwrap_or morsel_size DEFAULT_MORSEL_SIZE) }
        ensures parts { IfSome result (λ s. s.parts ≡ unwrap_or parts DEFAULT_PARTS) }
        ensures batch { IfSome result (λ s. s.batch ≡ unwrap_or batch DEFAULT_BATCH) }
        ensures none { IsNone result → AreInRange (unwrap_or workers DEFAULT_WORKERS) (unwrap_or morsel_size DEFAULT_MORSEL_SIZE) (unwrap_or parts DEFAULT_PARTS) → IsBatch (unwrap_or batch DEFAULT_BATCH) → ⊥ }
    {
        let settings = Settings::new(
            workers.unwrap_or(DEFAULT_WORKERS),
            morsel_size.unwrap_or(DEFAULT_MORSEL_SIZE),
            parts.unwrap_or(DEFAULT_PARTS),
        )?;
        settings.with_batch(batch.unwrap_or(DEFAULT_BATCH))
    }
}
