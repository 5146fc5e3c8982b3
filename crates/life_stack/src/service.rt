//! A service that answers by a script.
ghost use Rattle.std.specs.Prelude.{◌≡◌, ⊤, IfOk, IfSome, drop};
ghost use Rattle.std.specs.Option.{option_copied};
ghost use Rattle.life_script.specs.Valid.{EachFits, ScriptFits};
ghost use Rattle.life_stack.specs.Service.Script.{ScriptCalls, ScriptReadies, panic_for, panic_of, polls_for, script_for};

mod asking;
pub mod body;
pub mod ext;
pub mod fitting;
pub mod future;

use crate::service::body::ScriptBody;
use crate::service::ext::Ext;
use crate::service::fitting::FittingPolls;
use crate::service::future::ScriptFuture;
use life_core::{
    Cx, Fault, Future, Got, Limited, NoMemory, PanicText, Poll, Recorder, Request, Response,
    Service, Text, Twin, abandon_request,
};
use life_head::request_id::Number;
use life_script::{CallItem, Script, Scripts};
use std::alloc::Global;
use std::marker::Model;
use std::rc::Rc;

/// Serves each request by the script of the number in its extension, and one without such a script as
/// by a script without items. No header list of the scripts holds over 1,000 values. Its twins share the
/// scripts.
#[derive(Drop)]
pub struct ScriptService {
    scripts: Rc<Scripts>,
}

impl Model for ScriptService {
    ghost use Rattle.life_script.specs.Valid.{EachFits};
    ghost use Rattle.life_stack.specs.Service.Script.{SharedScripts};

    ghost Value = { SharedScripts };

    ghost view = { λ s. s.scripts.value.items };

    ghost invariant = { λ s. EachFits s.scripts.value.items };
}

impl Twin for ScriptService {
    fn twin(&self, _alloc: Global) -> Got<ScriptService> {
        match self.scripts.clone() {
            Ok(scripts) => Ok(ScriptService { scripts }),
            Err(_) => Err(NoMemory),
        }
    }
}

impl ScriptService {
    /// The service of these scripts.
    pub fn new(scripts: Rc<Scripts>) -> ScriptService
        requires { EachFits scripts.value.items }
        ensures { result ≡ scripts.value.items }
    {
        ScriptService { scripts }
    }

    /// The script of a number, or none.
    fn find(&self, number: Option<Number>) -> Option<&Script>
        ensures found { option_copied result ≡ script_for self.now number }
        ensures fits { IfSome (option_copied result) ScriptFits }
    {
        match number {
            Some(number) => self.scripts.get(number.0),
            None => None,
        }
    }
}

/// The poll items of a script, which shares them.
fn polls_of(alloc: Global, script: Option<&Script>) -> Got<FittingPolls>
    requires { IfSome (option_copied script) ScriptFits }
    ensures { IfOk result (λ polls. polls ≡ polls_for (option_copied script.entry)) }
{
    match script {
        Some(script) => Ok(FittingPolls::new(script.polls.clone()?)),
        None => FittingPolls::none(alloc),
    }
}

/// The panic of a script's call, if it has one.
fn panic_of(alloc: Global, script: Option<&Script>) -> Got<Option<PanicText>>
    ensures { IfOk result (λ panic. panic ≡ panic_for (option_copied script.entry)) }
{
    let Some(script) = script else {
        return Ok(None);
    };
    match &script.call {
        CallItem::Serve => Ok(None),
        CallItem::Panic(text) => Ok(Some(text.twin(alloc)?)),
    }
}

impl<L: Recorder> Service<Request<Limited<ScriptBody>, Ext>, L> for ScriptService {
    type Response = Response<ScriptBody, Ext>;

    type Error = Fault<Text>;

    type Future = ScriptFuture;

    ghost may = { λ _. ⊤ };

    ghost readies = { ScriptReadies };

    ghost calls = { ScriptCalls };

    fn poll_ready(&mut self, _cx: &mut Cx<'_, L>) -> Poll<Result<(), Fault<Text>>> {
        Poll::Ready(Ok(()))
    }

    fn call(
        &mut self,
        req: Request<Limited<ScriptBody>, Ext>,
        cx: &mut Cx<'_, L>,
    ) -> Got<ScriptFuture> {
        let script = self.find(req.ext().number);
        let Ok(polls) = polls_of(cx.alloc, script) else {
            return Err(abandon_request(req, cx));
        };
        let Ok(panic) = panic_of(cx.alloc, script) else {
            return Err(abandon_request(req, cx));
        };
        let (head, body) = req.into_parts();
        drop(head);
        Ok(ScriptFuture {
            polls,
            next: 0,
            body,
            panic,
        })
    }
}
