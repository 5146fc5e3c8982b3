//! What is asked: the limits of the stack, the scripts of the service and the steps of its client.
ghost use Rattle.std.specs.Prelude.{◌≡◌, IfOk};

use crate::headers::HeaderList;
use http::{HeaderName, Method, StatusCode, Uri};
use life_classify::classify::DriveClassifier;
use life_core::{Got, List, NoMemory, Octets, PanicText, Text, Twin};
use std::alloc::Global;
use std::marker::Model;
use std::rc::Rc;

/// How the layers are set.
#[derive(Debug, Drop)]
pub struct Limits {
    /// How long a response may take, in nanoseconds.
    pub timeout: u64,
    /// The status where it takes longer.
    pub timeout_status: StatusCode,
    /// How long a response's body may take, in nanoseconds.
    pub body_deadline: u64,
    /// How many bytes a request's body may have.
    pub byte_limit: u64,
    /// The header that lets a request through.
    pub gate_name: HeaderName,
    /// What its first value must be.
    pub gate_value: Text,
    /// Which answers are traced as failures.
    pub classifier: DriveClassifier,
    /// Whether the span of a request shows its headers.
    pub span_headers: bool,
}

impl Twin for Limits {
    fn twin(&self, alloc: Global) -> Got<Limits> {
        let gate_name = self.gate_name.twin(alloc)?;
        let gate_value = self.gate_value.twin(alloc)?;
        let classifier = self.classifier.twin(alloc)?;
        Ok(Limits {
            timeout: self.timeout,
            timeout_status: self.timeout_status,
            body_deadline: self.body_deadline,
            byte_limit: self.byte_limit,
            gate_name,
            gate_value,
            classifier,
            span_headers: self.span_headers,
        })
    }
}

/// What a body gives at one poll.
#[derive(Debug, Drop)]
pub enum BodyItem {
    /// Bytes.
    Chunk(Octets),
    /// Trailers.
    Trailers(HeaderList),
    /// Nothing yet.
    Pending,
    /// A fault, of which this is the text.
    Fault(Text),
}

/// What a body gives, poll by poll.
pub type BodyItems = List<BodyItem>;

impl Twin for BodyItem {
    fn twin(&self, alloc: Global) -> Got<BodyItem> {
        match self {
            BodyItem::Chunk(bytes) => Ok(BodyItem::Chunk(bytes.twin(alloc)?)),
            BodyItem::Trailers(headers) => Ok(BodyItem::Trailers(headers.twin(alloc)?)),
            BodyItem::Pending => Ok(BodyItem::Pending),
            BodyItem::Fault(text) => Ok(BodyItem::Fault(text.twin(alloc)?)),
        }
    }
}

/// A list, to be shared.
pub(crate) fn share_list<T: Drop>(alloc: Global, items: List<T>) -> Got<Rc<List<T>>>
    ensures { IfOk result (λ shared. shared.value.items ≡ items.items) }
{
    match Rc::new(alloc, items) {
        Ok(shared) => Ok(shared),
        Err(_) => Err(NoMemory),
    }
}

/// A scripted response. Its body tells its end exactly where `tells` holds and its items are used up.
#[derive(Debug, Drop)]
pub struct Reply {
    /// Its status.
    pub status: StatusCode,
    /// Its headers.
    pub headers: HeaderList,
    /// What its body gives, to be shared.
    pub body: Rc<BodyItems>,
    /// Whether its body tells its end.
    pub tells: bool,
}

impl Model for Reply {
    ghost use Rattle.life_script.specs.Reply.{ReplyView};

    ghost Value = { ReplyView };

    ghost view = { λ reply. record {
      status = reply.status;
      headers = reply.headers;
      body = reply.body.value.items;
      tells = reply.tells;
    } };
}

impl Twin for Reply {
    fn twin(&self, alloc: Global) -> Got<Reply> {
        let headers = self.headers.twin(alloc)?;
        let body = self.body.clone()?;
        Ok(Reply {
            status: self.status,
            headers,
            body,
            tells: self.tells,
        })
    }
}

/// What the scripted service answers at one poll.
#[derive(Debug, Drop)]
pub enum Then {
    /// Nothing yet.
    Pending,
    /// A panic.
    Panic(PanicText),
    /// An error, of which this is the text.
    Fail(Text),
    /// A response.
    Respond(Reply),
}

/// What the scripted service does at one poll.
#[derive(Debug, Drop)]
pub struct PollItem {
    /// How often it asks for a frame of the request's body before it answers. A scenario that is read has
    /// at most 16.
    pub asks: u8,
    /// What it answers then.
    pub then: Then,
}

/// What the scripted service does, poll by poll.
pub type PollItems = List<PollItem>;

impl Twin for PollItem {
    fn twin(&self, alloc: Global) -> Got<PollItem> {
        let then = match &self.then {
            Then::Pending => Then::Pending,
            Then::Panic(text) => Then::Panic(text.twin(alloc)?),
            Then::Fail(text) => Then::Fail(text.twin(alloc)?),
            Then::Respond(reply) => Then::Respond(reply.twin(alloc)?),
        };
        Ok(PollItem {
            asks: self.asks,
            then,
        })
    }
}

/// What the scripted service does when it is called.
#[derive(Debug, Drop)]
pub enum CallItem {
    /// It takes the request, and goes on poll by poll.
    Serve,
    /// It panics.
    Panic(PanicText),
}

impl Twin for CallItem {
    fn twin(&self, alloc: Global) -> Got<CallItem> {
        match self {
            CallItem::Serve => Ok(CallItem::Serve),
            CallItem::Panic(text) => Ok(CallItem::Panic(text.twin(alloc)?)),
        }
    }
}

/// The script of one request.
#[derive(Debug, Drop)]
pub struct Script {
    /// The method of the request.
    pub method: Method,
    /// The target of the request.
    pub uri: Uri,
    /// The headers of the request.
    pub headers: HeaderList,
    /// What the body of the request gives, to be shared.
    pub body: Rc<BodyItems>,
    /// What the service does when it is called with the request.
    pub call: CallItem,
    /// What the service does then, poll by poll, to be shared.
    pub polls: Rc<PollItems>,
}

impl Model for Script {
    ghost use Rattle.life_script.specs.Scenario.{ScriptView};

    ghost Value = { ScriptView };

    ghost view = { λ script. record {
      method = script.method;
      uri = script.uri;
      headers = script.headers;
      body = script.body.value.items;
      call = script.call;
      polls = script.polls.value.items;
    } };
}

impl Twin for Script {
    fn twin(&self, alloc: Global) -> Got<Script> {
        let method = self.method.twin(alloc)?;
        let uri = self.uri.twin(alloc)?;
        let headers = self.headers.twin(alloc)?;
        let body = self.body.clone()?;
        let call = self.call.twin(alloc)?;
        let polls = self.polls.clone()?;
        Ok(Script {
            method,
            uri,
            headers,
            body,
            call,
            polls,
        })
    }
}

/// The scripts of the requests, in the order of their numbers.
pub type Scripts = List<Script>;

/// What a client does with a request.
#[derive(Clone, Copy, Debug)]
pub enum Act {
    /// Calls the stack with it.
    Call,
    /// Polls what is live of it: its future, or the body of its response.
    Poll,
    /// Abandons what is live of it.
    Drop,
}

/// An act with one request, at a time.
#[derive(Clone, Copy, Debug)]
pub struct Step {
    /// The time, in nanoseconds.
    pub at: u64,
    /// The number of the request; the first has 0.
    pub request: u64,
    /// What is done.
    pub act: Act,
}

impl Twin for Step {
    fn twin(&self, _alloc: Global) -> Got<Step> {
        Ok(*self)
    }
}

/// Steps in the order in which they are made.
pub type Steps = List<Step>;

/// The requests that are made, the steps and the time of the end, in nanoseconds.
#[derive(Debug, Drop)]
pub struct Scenario {
    /// The scripts of the requests.
    pub requests: Scripts,
    /// What the client does.
    pub steps: Steps,
    /// The time of the end, in nanoseconds.
    pub end: u64,
}

impl Model for Scenario {
    ghost use Rattle.life_script.specs.Scenario.{ScenarioView};

    ghost Value = { ScenarioView };

    ghost view = { λ scenario. record {
      requests = scenario.requests.items;
      steps = scenario.steps.items;
      end = scenario.end;
    } };
}
