//! What the text of modules and its reading are to each other.

ghost use Rattle.hem_module.specs.Modules.{Modules as Written};
ghost use Rattle.hem_module.specs.Lawful.{IsModules};
ghost use Rattle.hem_modprint.specs.ReadsBack.{HasNumbers, ReadsBack};

/// The canonical text of modules reads as these modules. It does nothing.
pub fn reads_back()
    ensures { (m : Written) → IsModules m → HasNumbers m → ReadsBack m }
{}
