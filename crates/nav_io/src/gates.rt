// What the actors of a running program pass between their steps.

/// Who passes a gate.
#[derive(Clone, Copy)]
pub enum Actor {
    /// The lane with this number, which sends requests and asks questions.
    Lane(u32),
    /// The worker with this number, which builds tiles.
    Worker(u32),
}

/// What an actor does next, or has just done.
#[derive(Clone, Copy)]
pub enum Stage {
    BeforeRequest,
    AfterRequest,
    BeforeAsk,
    AfterAsk,
    BeforeClaim,
    BeforeBuild,
    BeforeSubmit,
    BeforePublish,
}

/// What each actor passes at each stage. It changes nothing that the program computes; a test may
/// hold an actor at it for a while, or count who passes.
pub trait Gate {
    fn pass(&self, actor: Actor, stage: Stage);
}

/// The gate that does nothing.
#[derive(Clone, Copy)]
pub struct FreeGate;

impl Gate for FreeGate {
    fn pass(&self, _actor: Actor, _stage: Stage) {}
}
