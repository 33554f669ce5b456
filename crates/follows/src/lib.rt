// How often an audit follows next: an entry for tests, in an archive of its own, which is no call of the driver's.
#![tactic(auto)]

ghost use Rattle.std.specs.Prelude.{◌≡◌, ◌≤◌};
ghost use Rattle.rules.specs.Bytes.{pieces_in};
ghost use Rattle.rules.specs.Sound.{lent};
ghost use Rattle.rules.specs.Step.{Audit, Do, step};
ghost use Rattle.audit.specs.Follows.{audit_follows};

// An audit's code, and how often it followed next: also where the pool is torn.
#[repr(C)]
#[derive(Clone, Copy)]
pub struct Counted {
    pub code: u16,
    pub follows: u32,
}

// audit, with how often it followed next: at most P times, whatever the pool.
#[unsafe(no_mangle)]
pub extern "C" fn slp_test_follows(pool: &[u8], storage: &[u8]) -> Counted
    ensures { (result.code ≡ (step (Do Audit) (lent pool.now storage.now)).code)
        × (result.follows ≡ audit_follows (lent pool.now storage.now)) × (result.follows ≤ pieces_in pool.now) }
{
    let audited = audit::audit(pool, storage.len());
    let code = match audited.shape {
        Ok(_) => 0,
        Err(why) => why.into(),
    };
    Counted {
        code,
        follows: audited.follows as u32,
    }
}
