//! What each store keeps besides its files: the name of the current one, and the last call that failed.
ghost use Rattle.std.specs.Prelude.{◌≡◌, false, None, Some, IsSome};
ghost use Rattle.std.specs.Option.{option_map_or};
ghost use Rattle.std.specs.Str.{bytes_eq};
ghost use Rattle.pm_io.specs.StoreLogs.{append_call};
ghost use Rattle.pm_io.specs.declared.store.StoreCall.{StoreCall};

use crate::text::Text;
use std::marker::Model;

// The last fault. One by an append is at the current file, so an append needs no memory to record it.
#[derive(Drop)]
enum Fault {
    Never,
    Load(Text),
    Create(Text),
    Append,
}

/// The name of a store's current file, if there is one, and its last fault, if there was one.
#[derive(Drop)]
pub struct StoreLog {
    current: Option<Text>,
    fault: Fault,
}

impl Model for StoreLog {
    ghost use Rattle.pm_io.specs.StoreLogs.{Logged, last_call, HasItsFile};

    ghost Value = { Logged };

    ghost view = { λ log. record { current = log.current; last = last_call log.fault log.current } };

    ghost invariant = { λ log. HasItsFile log.fault log.current };
}

impl StoreLog {
    pub fn new() -> StoreLog
        ensures current { result.current ≡ None }
        ensures last { result.last ≡ None }
    {
        StoreLog {
            current: None,
            fault: Fault::Never,
        }
    }

    /// Whether the current file has this name.
    pub fn is_current(&self, name: &[u8]) -> bool
        ensures { result ≡ option_map_or (bytes_eq name.now) self.now.current false }
    {
        match &self.current {
            Some(current) => name == current.as_slice(),
            None => false,
        }
    }

    /// Records the file that was created.
    pub fn created(&mut self, name: Text)
        requires { self.old.current ≡ None }
        ensures current { self.new.current ≡ Some name }
        ensures last { self.new.last ≡ self.old.last }
    {
        self.current = Some(name);
    }

    /// Records a load that failed.
    pub fn load_failed(&mut self, name: Text)
        ensures current { self.new.current ≡ self.old.current }
        ensures last { self.new.last ≡ Some (name, StoreCall.Load) }
    {
        self.fault = Fault::Load(name);
    }

    /// Records a create that failed.
    pub fn create_failed(&mut self, name: Text)
        ensures current { self.new.current ≡ self.old.current }
        ensures last { self.new.last ≡ Some (name, StoreCall.Create) }
    {
        self.fault = Fault::Create(name);
    }

    /// Records an append to the current file that failed.
    pub fn append_failed(&mut self)
        requires { IsSome self.old.current }
        ensures current { self.new.current ≡ self.old.current }
        ensures last { self.new.last ≡ append_call self.old.current }
    {
        self.fault = Fault::Append;
    }
}
