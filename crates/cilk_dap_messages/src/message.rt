//! A message as it is made, member by member.

use crate::asked::Asked;
use serde_json::{Map, Value, push, put};
use std::alloc::{AllocError, Global};

/// A message that is being made. Its nesting is the caller's: what is begun is ended.
pub struct Message {
    alloc: Global,
    /// What was begun and has not ended, from the outermost on.
    begun: Vec<Begun>,
    /// The message, once all has ended.
    whole: Value,
}

// To drop it elsewhere is to call this, and its fields' drops are proved here alone.
impl Drop for Message {
    fn drop(self) {
        let Message {
            alloc: _,
            begun: _begun,
            whole: _whole,
        } = self;
    }
}

/// An object or a list that has not ended.
#[derive(Drop)]
struct Begun {
    /// What it is called in the object around it; nothing where it is an item.
    name: String,
    value: Value,
}

impl Message {
    /// A response to a request, without what it tells, and with whether what was asked is done.
    pub fn response(
        alloc: Global,
        number: u64,
        asked: &Asked<'_>,
        done: bool,
    ) -> Result<Message, AllocError> {
        let mut message = Message::begun(alloc, number, "response")?;
        let put = message.put_answered(asked, done);
        message.with(put)
    }

    // What request a response is to.
    fn put_answered(&mut self, asked: &Asked<'_>, done: bool) -> Result<(), AllocError> {
        self.number("request_seq", asked.number)?;
        self.text("command", asked.command)?;
        self.flag("success", done)
    }

    /// An event, without what it tells.
    pub fn event(alloc: Global, number: u64, name: &str) -> Result<Message, AllocError> {
        let mut message = Message::begun(alloc, number, "event")?;
        let put = message.text("event", name);
        message.with(put)
    }

    // One of this kind, which has a number.
    fn begun(alloc: Global, number: u64, kind: &str) -> Result<Message, AllocError> {
        let mut message = Message {
            alloc,
            begun: Vec::new(alloc),
            whole: Value::Null,
        };
        let put = message.put_kind(number, kind);
        message.with(put)
    }

    fn put_kind(&mut self, number: u64, kind: &str) -> Result<(), AllocError> {
        self.begin_item()?;
        self.number("seq", number)?;
        self.text("type", kind)
    }

    /// The message, where what was to be put into it is there.
    pub(crate) fn with(self, put: Result<(), AllocError>) -> Result<Message, AllocError> {
        match put {
            Err(memory) => {
                drop(self);
                Err(memory)
            }
            Ok(()) => Ok(self),
        }
    }

    // Puts a value into what was begun last.
    fn put(&mut self, name: &str, value: Value) -> Result<(), AllocError> {
        match self.begun.as_mut_slice().last_mut() {
            None => {
                self.whole = value;
                Ok(())
            }
            Some(last) => put_into(self.alloc, &mut last.value, name, value),
        }
    }

    /// A member with a text.
    pub(crate) fn text(&mut self, name: &str, value: &str) -> Result<(), AllocError> {
        let value = Value::try_from_str(self.alloc, value)?;
        self.put(name, value)
    }

    /// A member with a number.
    pub(crate) fn number(&mut self, name: &str, value: u64) -> Result<(), AllocError> {
        self.put(name, Value::from(value))
    }

    /// A member that is true or false.
    pub(crate) fn flag(&mut self, name: &str, value: bool) -> Result<(), AllocError> {
        self.put(name, Value::Bool(value))
    }

    /// A member that has no value.
    pub(crate) fn nothing(&mut self, name: &str) -> Result<(), AllocError> {
        self.put(name, Value::Null)
    }

    /// An object as a member begins.
    pub(crate) fn begin(&mut self, name: &str) -> Result<(), AllocError> {
        self.open(name, Value::Object(Map::new(self.alloc)))
    }

    /// An object as an item begins.
    pub(crate) fn begin_item(&mut self) -> Result<(), AllocError> {
        self.begin("")
    }

    /// A list as a member begins.
    pub(crate) fn begin_list(&mut self, name: &str) -> Result<(), AllocError> {
        self.open(name, Value::Array(Vec::new(self.alloc)))
    }

    /// What is told begins, a list of this name.
    pub fn begin_body(&mut self, name: &str) -> Result<(), AllocError> {
        self.begin("body")?;
        self.begin_list(name)
    }

    /// That list ends, and what is told.
    pub fn end_body(&mut self) -> Result<(), AllocError> {
        self.end()?;
        self.end()
    }

    /// A breakpoint ends that is set.
    pub(crate) fn put_verified(&mut self) -> Result<(), AllocError> {
        self.flag("verified", true)?;
        self.end()
    }

    /// A breakpoint ends that is not set, and why.
    pub(crate) fn put_unverified(&mut self, words: &str) -> Result<(), AllocError> {
        self.flag("verified", false)?;
        self.text("message", words)?;
        self.end()
    }

    fn open(&mut self, name: &str, value: Value) -> Result<(), AllocError> {
        let name = String::from_str(self.alloc, name)?;
        self.begun.push(Begun { name, value })?;
        Ok(())
    }

    /// The last object or list that was begun ends.
    pub fn end(&mut self) -> Result<(), AllocError> {
        match self.begun.pop() {
            None => Ok(()),
            Some(last) => {
                let Begun { name, value } = last;
                self.put(name.as_str(), value)
            }
        }
    }

    /// Its bytes.
    pub(crate) fn to_vec(&self) -> Result<Vec<u8>, AllocError> {
        self.whole.to_vec(self.alloc)
    }
}

// Puts a value into an object by its name, or behind the items of a list.
fn put_into(alloc: Global, around: &mut Value, name: &str, value: Value) -> Result<(), AllocError> {
    match around {
        Value::Object(members) => put(members, alloc, name, value),
        Value::Array(items) => push(items, value),
        _ => Ok(()),
    }
}
