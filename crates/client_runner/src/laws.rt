ghost use Rattle.std.specs.Prelude.{List};
ghost use Rattle.script_form.specs.declared.config.Config.{Config};
ghost use Rattle.script_form.specs.declared.script.Line.{Line};
ghost use Rattle.client_runner.specs.Outputs.{HasLawfulOutput};

/// The laws can be met: whatever the script, whose lines ascend, some output is lawful for it.
pub fn every_script_has_a_lawful_output()
    ensures { (c : Config) (script : List Line) → HasLawfulOutput c script }
{}
