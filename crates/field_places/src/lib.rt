#![tactic(auto)]

// The place of the first wrong byte in single fields, as an independent reference gave it, computed from the meaning as in `cases`.
