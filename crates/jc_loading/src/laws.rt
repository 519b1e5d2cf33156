//! What the sides of one platform share.
ghost use Rattle.jc_loading.specs.PlatformLoads.{PlatformLoadsStay};

/// A class that loads with the platform alone loads in each world over that platform, whatever the
/// release and the clients, and in however many modules: nothing that loading such a class asks of
/// modules depends on them, as all of the platform is in one.
pub fn platform_loads_stay()
    ensures { PlatformLoadsStay }
{}
