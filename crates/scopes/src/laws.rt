ghost use Rattle.scopes.specs.Laws.{SettingIsLocal};

/// A law of `Scopes::set`: what was set is found, and other names, scopes and frames stand.
pub fn setting_is_local()
    ensures { SettingIsLocal }
{}
