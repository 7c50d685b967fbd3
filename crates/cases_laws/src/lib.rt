// What the texts of the case programs stand for: definitions and laws. No promise of the library rests on these.
#![tactic(auto)]
