//! What the probe sends about itself.

ghost use Rattle.std.specs.Prelude.{◌≡◌, [], None, IfErr, IfOk, IfSome};
ghost use Rattle.dist_core_setup.specs.Limits.{usual_limits};

use dist_core_setup::{Limits, Setup, Version};
use dist_names::{Creation, Flags, NodeName};
use dist_program::draw;
use dist_secret::{Cookie, Cookies};
use distping_words::Fault;
use std::alloc::Global;

/// A random number of 32 bits.
pub fn draw_challenge(rt: &HostRuntime) -> Result<u32, Fault>
    ensures { IfErr result (λ fault. fault ≡ Fault.NoRandomBytes) }
{
    draw(rt).ok().ok_or(Fault::NoRandomBytes)
}

// This cookie, or one that is never used.
fn cookie_for(alloc: Global, cookie: Option<&Cookie>) -> Result<Cookie, Fault>
    ensures { IfOk result (λ it. IfSome cookie.entry (λ c. it ≡ c.now)) }
{
    match cookie {
        Some(cookie) => Ok(cookie.try_clone(alloc)?),
        None => Cookie::from_bytes(alloc, b"none")
            .ok()
            .ok_or(Fault::NoMemory),
    }
}

/// The setup of a node with this name that only asks, with a random creation. If there is no cookie, it has one that is never used.
pub fn setup_of(
    rt: &HostRuntime,
    own: &NodeName,
    flags: Flags,
    cookie: Option<&Cookie>,
) -> Result<Setup, Fault>
    ensures setup { IfOk result (λ s. s ≡ record {
      name = own.now;
      cookies = s.cookies;
      version = Version.Six;
      flags = flags;
      required = record { 0 = 0 };
      creation = s.creation;
      allow = None;
      limits = usual_limits;
    }) }
    ensures cookie { IfOk result (λ s. IfSome cookie.entry (λ c. s.cookies ≡ record { usual = c.now; own = [] })) }
{
    let (alloc, creation) = (rt.alloc(), draw_challenge(rt)?);
    let name = own.try_clone(alloc)?;
    let cookie = cookie_for(alloc, cookie)?;
    Ok(Setup {
        name,
        cookies: Cookies::new(alloc, cookie),
        version: Version::Six,
        flags,
        required: Flags(0),
        creation: Creation(creation),
        allow: None,
        limits: Limits::usual(),
    })
}
