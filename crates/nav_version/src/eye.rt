//! An eye, which reads what is published.

ghost use Rattle.std.specs.Prelude.{◌≡◌, ◌⊎◌, IfOk, OnOk, OnErr, Some, length};
ghost use Rattle.std.specs.Arc.{arc_value};
ghost use mathlib.Core.List.{IsPrefix};
ghost use Rattle.left_right.specs.Sides.{view};
ghost use Rattle.mesh_types.specs.Builds.{build_of};
ghost use Rattle.mesh_types.specs.Right.{IsRight};
ghost use Rattle.nav_query.specs.Questions.{HasLowCost, HasUnfoldedWay, IsAnswerable};
ghost use Rattle.nav_version.specs.Pairs.{HasLooked, after_learning, eye_of};
ghost use Rattle.nav_version.specs.VersionRule.{HasFound, IsKnownOf, IsShown, IsTaken, Takes, ground_known};

use crate::rule::{Entering, Told};
use crate::version::{PublishedVersion, VersionReader};
use core::mem::replace_with;
use graph_search::Room;
use mesh_types::{Answer, Asked};
use nav_base::Question;
use std::alloc::{AllocError, Global};
use std::marker::Model;

/// One reader of a pair's published versions.
///
/// Contracts see the pair, its ground, and the longest list of entries that the eye saw or learnt of. It keeps the memory that a search for a path
/// works in for the next.
#[derive(Drop)]
pub struct Eye {
    reader: VersionReader,
    told: Told,
    room: Room,
}

impl Model for Eye {
    ghost use Rattle.nav_version.specs.Pairs.{EyeView};

    ghost Value = { EyeView };

    ghost use Rattle.nav_version.specs.Representation.{eye_view, IsEyeKept};

    ghost view = { eye_view };

    ghost invariant = { IsEyeKept };
}

// An answer to a question from a version that is shown, and the version's list. It is refused for want of memory; and where the version
// were a shorter one than was learnt of, which no press shows.
fn answered<Q: Asked>(
    alloc: Global,
    shown: &PublishedVersion,
    question: &Q,
    seen: &Told,
) -> Result<(Told, Q::Answer), AllocError>
    requires question { Q.can_ask question.now }
    requires shown { IsShown shown.now }
    requires pair { seen.now.pair ≡ shown.now.told.pair }
    ensures { IfOk result (HasFound (λ mesh answer. Q.is_right question.now mesh answer) (arc_value shown.now.version.ground) seen.now) }
{
    if !shown.told.goes_on(seen) {
        return Err(AllocError);
    }
    let answer = question.ask(alloc, shown.version.get().mesh.get())?;
    Ok((shown.told.again(), answer))
}

// The same for a question for floors, for a path or for a straight walk. It is answered by the landmarks of the version, where it has some.
fn answered_by_landmarks(
    alloc: Global,
    room: &mut Room,
    shown: &PublishedVersion,
    question: &Question,
    seen: &Told,
) -> Result<(Told, Answer), AllocError>
    requires question { IsAnswerable question.now }
    requires shown { IsShown shown.now }
    requires pair { seen.now.pair ≡ shown.now.told.pair }
    ensures { IfOk result (HasFound (λ mesh answer. IsRight mesh question.now answer × HasLowCost answer) (arc_value shown.now.version.ground) seen.now) }
{
    if shown.told.goes_on(seen) {
        let answer = shown.version.get().mesh.ask_in(alloc, room, question)?;
        Ok((shown.told.again(), answer))
    } else {
        Err(AllocError)
    }
}

// A further owner of what is shown now. The reader is inside only while it takes that. It is refused where the count of owners has reached
// its end, and where the press has ended.
fn look(
    reader: VersionReader,
    _nothing: (),
) -> (VersionReader, Result<PublishedVersion, AllocError>)
    ensures shown { IfOk result.1 (λ shown. view result.0.place ≡ Some shown) }
    ensures taken { IfOk result.1 (IsTaken (view reader.place)) }
    ensures knows { Takes (view reader.place) (view result.0.place) ⊎ (view result.0.place ≡ view reader.place) }
{
    match reader.enter_as::<Entering>() {
        Ok(reading) => {
            let shown = reading.get().share();
            (reading.leave(), shown)
        }
        Err(reader) => (reader, Err(AllocError)),
    }
}

impl Eye {
    // An eye whose reader knows a version of the pair.
    pub(crate) fn opened(alloc: Global, reader: VersionReader, told: Told) -> Eye
        requires { IsKnownOf told.pair (view reader.place) }
        ensures { result ≡ eye_of told.pair (ground_known (view reader.place)) told.entries }
    {
        let room = Room::new(alloc);
        Eye { reader, told, room }
    }

    /// Takes in a published length: what the eye answers from then on comes from versions that go on from the one which was published
    /// with that length.
    pub fn learn(&mut self, told: Told)
        requires { told.pair ≡ self.old.pair }
        ensures learnt { self.new ≡ after_learning self.old told.entries }
        ensures own { IsPrefix self.old.seen self.new.seen }
        ensures told { IsPrefix told.entries self.new.seen }
    {
        if !self.told.goes_on(&told) {
            self.told = told;
        }
    }

    /// The length of the longest version that the eye saw or learnt of.
    pub fn seen(&self) -> u32
        ensures { result ≡ length self.now.seen }
    {
        self.told.length()
    }

    /// The length of a published version, and an answer to the question that is right in its mesh. It takes no lock and does not wait.
    ///
    /// The eye is inside what is shown only while it takes a share of it, and answers from that: a question holds up no publishing, however
    /// long it takes.
    ///
    /// The version goes on from all that the eye saw or learnt of. It is refused for want of memory, and where the press has ended; and where
    /// the version were a shorter one than a length that the eye has learnt, which no press shows.
    pub fn ask(&mut self, alloc: Global, question: &Question) -> Result<(u32, Answer), AllocError>
        requires { IsAnswerable question.now }
        ensures looked { OnOk result (HasLooked self.old self.new) }
        ensures length { IfOk result (λ told. told.0 ≡ length self.new.seen) }
        ensures right { IfOk result (λ told. IsRight (build_of self.old.ground self.new.seen told.0) question.now told.1) }
        ensures low_cost { IfOk result (λ told. HasLowCost told.1) }

        // No portal on a path's way folds back on the one before it.
        ensures unfolded { IfOk result (λ told. HasUnfoldedWay told.1) }

        // After a refusal the eye has looked all the same, or nothing has changed.
        ensures refused { OnErr result (HasLooked self.old self.new ⊎ (self.new ≡ self.old)) }
    {
        let shown = replace_with(&mut self.reader, (), look)?;
        let (told, answer) = answered_by_landmarks(
            alloc,
            &mut self.room,
            &shown,
            question,
            &self.told,
        )?;
        let k = told.length();
        self.told = told;
        Ok((k, answer))
    }

    /// The length of a published version, and an answer to a question of any kind that is right in its mesh. What `ask` says of the version,
    /// of waiting and of refusals holds here too.
    pub fn ask_by<Q: Asked>(
        &mut self,
        alloc: Global,
        question: &Q,
    ) -> Result<(u32, Q::Answer), AllocError>
        requires question { Q.can_ask question.now }
        ensures looked { OnOk result (HasLooked self.old self.new) }
        ensures length { IfOk result (λ told. told.0 ≡ length self.new.seen) }
        ensures right { IfOk result (λ told. Q.is_right question.now (build_of self.old.ground self.new.seen told.0) told.1) }

        // After a refusal the eye has looked all the same, or nothing has changed.
        ensures refused { OnErr result (HasLooked self.old self.new ⊎ (self.new ≡ self.old)) }
    {
        let shown = replace_with(&mut self.reader, (), look)?;
        let (found, answer) = answered(alloc, &shown, question, &self.told)?;
        let length = found.length();
        self.told = found;
        Ok((length, answer))
    }
}
