ghost use Rattle.std.specs.Prelude.{◌≡◌, codes};
ghost use Rattle.domain_conf.specs.declared.fault.ConfFault.TheVariants as conf;
ghost use Rattle.command_node.specs.DomainFile.{conf_refused_text};

/// How domain files that break a rule are rejected.
pub fn lines_of_refused_files()
    ensures duplicate { conf_refused_text (conf.Duplicate (codes "router[1].system")) ≡ codes "refused conf 3 Duplicate router[1].system\n" }
    ensures toml { conf_refused_text conf.Toml ≡ codes "refused conf 1 Toml -\n" }
{}
