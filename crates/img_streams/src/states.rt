//! What a stream does in one resume, by where it is in its script.
ghost use Rattle.std.specs.Prelude.{◌≡◌, ◌+◌, ◌<◌, ◌^◌, length, vec_capacity, [], ◌∷◌, ◌++◌};
ghost use Rattle.co_state.specs.Wants.{nothing_asked};
ghost use Rattle.img_streams.specs.declared.progress.At.TheVariants.{Between, Waiting, Serving, Ended, Retiring};
ghost use Rattle.img_streams.specs.Deeds.{Entered, TookUp, Served, Left, itself, woken_by, at_after};
ghost use Rattle.img_streams.specs.Streams.{IsStreamOf, Resumes, source, IsEntering, CanGetReply, GetsReply, MovesOn};

use crate::answers::{Grant, Visit};
use crate::buffers::go_on;
use crate::gate::Passed;
use crate::lines::{next_line, request_at};
use crate::progress::At;
use crate::rule::ImageRule;
use crate::stream::{ServeEnv, Stream};
use crate::turns;
use crate::wakes::{ask, ask_last};
use aio_model::What;
use aio_words::{Device, Gate};
use co_mutex::LockRule;
use co_state::{CoId, CoStep, Cx};
use img_shared::{Enter, Piece};
use std::sync::Wait;

impl<P: LockRule> Stream<P> {
    /// The request at hand has its reply, and the next line is the one after it.
    fn get_reply(&mut self)
        requires can { CanGetReply self.old }
        ensures gets { GetsReply self.old self.new }
    {
        go_on(&mut self.filled, &mut self.buffer, &mut self.later);
        self.index += 1;
        self.line += 1;
        self.at = At::Between;
    }

    /// Goes on after the request was entered. Names the coroutine itself where it doesn't wait for its hold.
    fn go_on_entered(&mut self, answer: Enter) -> Option<CoId>
        requires can { CanGetReply self.old }
        ensures moves { MovesOn (Entered answer) self.old self.new }
        ensures itself { result ≡ itself self.old.co (at_after (Entered answer)) }
    {
        match answer {
            Enter::Begun => {
                self.at = At::Serving;
                Some(self.co)
            }
            Enter::Queued => {
                self.at = At::Waiting;
                None
            }
            Enter::Refused(_) => {
                self.get_reply();
                Some(self.co)
            }
        }
    }

    /// Goes on after the hold was looked for, and after the first piece where it was granted. Names whom the image woke, and
    /// the coroutine itself where it has its hold.
    fn go_on_taken_up(&mut self, answer: Grant) -> (Option<CoId>, Option<CoId>)
        requires at { self.old.at ≡ Waiting }
        ensures moves { MovesOn (TookUp answer) self.old self.new }
        ensures woken { result.0 ≡ woken_by (TookUp answer) }
        ensures itself { result.1 ≡ itself self.old.co (at_after (TookUp answer)) }
    {
        match answer {
            Grant::NotYet => (None, None),
            Grant::Granted(woken, first) => (woken, self.go_on_after_piece(first)),
        }
    }

    /// Goes on after a piece, behind the turn at the lock: it says what the next resume does. Names the coroutine itself.
    fn go_on_after_piece(&mut self, answer: Piece) -> Option<CoId>
        ensures moves { MovesOn (Served answer) self.old self.new }
        ensures itself { result ≡ itself self.old.co (at_after (Served answer)) }
    {
        self.at = match answer {
            Piece::More => At::Serving,
            Piece::Whole | Piece::Failed => At::Ended,
        };
        Some(self.co)
    }
}

impl<D: Device> Stream<ImageRule<D>> {
    /// Enters the request at hand.
    pub(crate) fn enter<G: Gate, R: Wait>(
        &mut self,
        env: &ServeEnv<'_, D, G, R>,
        cx: &mut Cx,
    ) -> CoStep
        requires of { IsStreamOf D.bytes self.old (source env.now.lock.now env.now.script.now) }
        requires at { IsEntering self.old.at }
        requires fresh { cx.old ≡ nothing_asked }
        ensures of { IsStreamOf D.bytes self.new (source env.now.lock.now env.now.script.now) }
        ensures resumes { Resumes D.bytes self.old (source env.now.lock.now env.now.script.now) cx.new result self.new }
    {
        let At::Entering(passed) = self.at else {
            unreachable!()
        };
        let request = request_at(env.script.lines.as_slice(), self.line);
        match turns::enter(
            env.rt,
            env.lock,
            &mut self.pass,
            self.queued,
            self.co,
            passed,
            request,
        ) {
            Visit::Waits(named) => {
                self.queued = true;
                ask(cx, named, None, None);
                CoStep::Yield
            }
            Visit::Did(answer, named) => {
                self.queued = false;
                let itself = self.go_on_entered(answer);
                ask(cx, named, None, itself);
                CoStep::Yield
            }
        }
    }

    /// Looks whether the stream has its hold. Takes it up then, and serves the first piece.
    pub(crate) fn take_up<G: Gate, R: Wait>(
        &mut self,
        env: &ServeEnv<'_, D, G, R>,
        cx: &mut Cx,
    ) -> CoStep
        requires of { IsStreamOf D.bytes self.old (source env.now.lock.now env.now.script.now) }
        requires at { self.old.at ≡ Waiting }
        requires fresh { cx.old ≡ nothing_asked }
        ensures of { IsStreamOf D.bytes self.new (source env.now.lock.now env.now.script.now) }
        ensures resumes { Resumes D.bytes self.old (source env.now.lock.now env.now.script.now) cx.new result self.new }
    {
        let request = request_at(env.script.lines.as_slice(), self.line);
        match turns::take_up(
            env.rt,
            env.lock,
            &mut self.pass,
            self.queued,
            self.co,
            request,
            self.buffer.as_mut_slice(),
        ) {
            Visit::Waits(named) => {
                self.queued = true;
                ask(cx, named, None, None);
                CoStep::Yield
            }
            Visit::Did(answer, named) => {
                self.queued = false;
                let (woken, itself) = self.go_on_taken_up(answer);
                ask(cx, named, woken, itself);
                CoStep::Yield
            }
        }
    }

    /// Serves the next piece.
    pub(crate) fn serve<G: Gate, R: Wait>(
        &mut self,
        env: &ServeEnv<'_, D, G, R>,
        cx: &mut Cx,
    ) -> CoStep
        requires of { IsStreamOf D.bytes self.old (source env.now.lock.now env.now.script.now) }
        requires at { self.old.at ≡ Serving }
        requires fresh { cx.old ≡ nothing_asked }
        ensures of { IsStreamOf D.bytes self.new (source env.now.lock.now env.now.script.now) }
        ensures resumes { Resumes D.bytes self.old (source env.now.lock.now env.now.script.now) cx.new result self.new }
    {
        let request = request_at(env.script.lines.as_slice(), self.line);
        match turns::serve(
            env.rt,
            env.lock,
            &mut self.pass,
            self.queued,
            self.co,
            request,
            self.buffer.as_mut_slice(),
        ) {
            Visit::Waits(named) => {
                self.queued = true;
                ask(cx, named, None, None);
                CoStep::Yield
            }
            Visit::Did(answer, named) => {
                self.queued = false;
                let itself = self.go_on_after_piece(answer);
                ask(cx, named, None, itself);
                CoStep::Yield
            }
        }
    }

    /// Gives the request its place.
    pub(crate) fn leave<G: Gate, R: Wait>(
        &mut self,
        env: &ServeEnv<'_, D, G, R>,
        cx: &mut Cx,
    ) -> CoStep
        requires of { IsStreamOf D.bytes self.old (source env.now.lock.now env.now.script.now) }
        requires at { self.old.at ≡ Ended }
        requires fresh { cx.old ≡ nothing_asked }
        ensures of { IsStreamOf D.bytes self.new (source env.now.lock.now env.now.script.now) }
        ensures resumes { Resumes D.bytes self.old (source env.now.lock.now env.now.script.now) cx.new result self.new }
    {
        match turns::leave(env.rt, env.lock, &mut self.pass, self.queued, self.co) {
            Visit::Waits(named) => {
                self.queued = true;
                ask(cx, named, None, None);
                CoStep::Yield
            }
            Visit::Did(woken, named) => {
                self.queued = false;
                self.get_reply();
                ask(cx, named, woken, Some(self.co));
                CoStep::Yield
            }
        }
    }

    /// Retires, behind the last of the stream's lines.
    pub(crate) fn retire<G: Gate, R: Wait>(
        &mut self,
        env: &ServeEnv<'_, D, G, R>,
        cx: &mut Cx,
    ) -> CoStep
        requires of { IsStreamOf D.bytes self.old (source env.now.lock.now env.now.script.now) }
        requires at { self.old.at ≡ Retiring }
        requires fresh { cx.old ≡ nothing_asked }
        ensures of { IsStreamOf D.bytes self.new (source env.now.lock.now env.now.script.now) }
        ensures resumes { Resumes D.bytes self.old (source env.now.lock.now env.now.script.now) cx.new result self.new }
    {
        match turns::retire(env.rt, env.lock, &mut self.pass, self.queued, self.co) {
            Visit::Waits(named) => {
                self.queued = true;
                ask(cx, named, None, None);
                CoStep::Yield
            }
            Visit::Did(going, named) => {
                self.queued = false;
                self.at = At::Gone;
                ask_last(cx, named, going);
                CoStep::Done
            }
        }
    }

    /// Looks at the stream's next line. Passes the gate, where that is a request.
    pub(crate) fn begin<G: Gate, R: Wait>(
        &mut self,
        env: &ServeEnv<'_, D, G, R>,
        cx: &mut Cx,
    ) -> CoStep
        requires of { IsStreamOf D.bytes self.old (source env.now.lock.now env.now.script.now) }
        requires at { self.old.at ≡ Between }
        requires fresh { cx.old ≡ nothing_asked }
        ensures of { IsStreamOf D.bytes self.new (source env.now.lock.now env.now.script.now) }
        ensures resumes { Resumes D.bytes self.old (source env.now.lock.now env.now.script.now) cx.new result self.new }
    {
        let lines = env.script.lines.as_slice();
        let at = next_line(lines, self.id, self.places.as_slice(), self.line);
        if at == lines.len() {
            self.line = at;
            self.at = At::Retiring;
            return self.retire(env, cx);
        }
        let line = &lines[at];
        match &line.what {
            What::Delay(ns) => {
                self.line = at + 1;
                CoStep::Sleep(*ns)
            }
            What::Move(home) => {
                self.line = at + 1;
                self.co.home = *home;
                CoStep::Move(*home)
            }
            What::Ask(_) => {
                let passed = Passed::through(env.gate, &self.pass, self.co.co, self.index);
                self.line = at;
                self.at = At::Entering(passed);
                self.enter(env, cx)
            }
        }
    }
}
